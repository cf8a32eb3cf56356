//! Laws of what the bytes of a connection need.
ghost use Rattle.std.specs.Prelude.{List, ℕ};
ghost use Rattle.au_http.specs.Pipelines.{HaveOneNeed, KeepNeed, KeepRequests, StandAlone};

/// What bytes need depends on them alone.
pub fn have_one_need()
    ensures { (bytes : List ℕ) → HaveOneNeed bytes }
{}

/// What isn't `More` stays, whatever bytes follow. So it doesn't matter in which pieces they come.
pub fn keep_need()
    ensures { (bytes : List ℕ) → KeepNeed bytes }
{}

/// A request is told by its own bytes: what follows them is untouched.
pub fn stand_alone()
    ensures { (bytes : List ℕ) → StandAlone bytes }
{}

/// Requests that follow one another are read one by one, and stay so when more bytes come.
pub fn keep_requests()
    ensures { (bytes : List ℕ) → KeepRequests bytes }
{}
