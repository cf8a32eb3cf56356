//! The calls that the program makes.
ghost use Rattle.std.specs.Prelude.{◌≡◌, ◌⊎◌, ℕ, List, Some, true, false};
ghost use Rattle.au_journal.specs.Creation.{IsSelectedFormatted};
ghost use Rattle.au_journal.specs.Frames.{IsLimit};
ghost use Rattle.au_journal.specs.Walk.{IsUnformatted};
ghost use Rattle.au_store.specs.declared.open_fault.OpenFault.{OpenFault};
ghost use Rattle.au_store.specs.declared.look_fault.LookFault.{LookFault};
ghost use Rattle.au_store.specs.Looking.{LookSays};
ghost use Rattle.au_store.specs.Starting.{IsOfBytes, OpenSays};
ghost use Rattle.au_words.specs.declared.command.Command.{Command as AnyCommand};
ghost use Rattle.au_words.specs.Words.{IsCommand, IsInit, IsRun, IsSample, IsServe};
ghost use Rattle.au_main.specs.Causes.{EndSays, TopSays};
ghost use Rattle.au_main.specs.Complete.{IsDoneOrShort, IsEndOr, IsReady, IsScript, NoneRose};
ghost use Rattle.au_main.specs.declared.export.Export.{Export as AnyExport};
ghost use Rattle.au_main.specs.Exports.{CanBeRead, HasExport, IsExport, IsOfLook, as_command, look_status};
ghost use Rattle.au_main.specs.Init.{HasInit};
ghost use Rattle.au_main.specs.Means.{means_of};
ghost use Rattle.au_main.specs.Ran.{HasRun, IsReadCause, IsUnopened, IsWriteCause, status_of};
ghost use Rattle.au_main.specs.Samples.{SampleTo};
ghost use Rattle.au_main.specs.Serves.{HasServed, SaysServe, asked_of};

use crate::export::Export;
use crate::exporting::export;
use crate::init::init;
use crate::run::run;
use crate::sampling::sample;
use crate::serve::serve;
use crate::status::Status;
use au_base::Text;
use au_io::{Clock, Disk, Lobby, Sink, Source};
use au_store::{never_damaged, one_cause};
use au_words::{Command, command_of, one_command};
use std::alloc::Global;
use std::sync::Wait;
use std::thread::Threads;

/// Does what the words after the program's name say, on the outside that it is handed. What is left of
/// the disk, the clock and the lobby comes back.
///
/// `serve --port N --workers N [--connections N]` opens the store on the disk and the lobby at the port,
/// and serves the lobby's connections: that number, or all that come where it is 0 or left out. It ends
/// with `Done` only where each connection came back answered, and with `LobbyFault` only where the lobby
/// failed. Words that don't begin with `serve` are left to `alone`.
pub fn top<R: Threads + Wait + Sync, S: Source, W: Sink, D: Disk, C: Clock, L: Lobby>(
    rt: &R,
    alloc: Global,
    words: &[Text],
    source: &mut S,
    sink: &mut W,
    disk: D,
    clock: C,
    lobby: L,
) -> (Status, D, C, L)
    ensures run { IsRun words.now → HasRun (means_of D.told D.meaning D.faults C.ticking) result.0 (S.left source.old) (S.left source.new) disk result.1 clock result.2 (W.given sink.old) (W.given sink.new)
        ⊎ (IsUnopened (means_of D.told D.meaning D.faults C.ticking) result.0 disk result.1 clock result.2 × (source.new ≡ source.old) × (sink.new ≡ sink.old)) }
    ensures init { (password : List ℕ) (limit : ℕ) → IsInit words.now password limit → HasInit D.told D.meaning D.faults result.0 password limit disk result.1
        × (source.new ≡ source.old) × (sink.new ≡ sink.old) × (result.2 ≡ clock) }
    ensures exports { (command : AnyExport) → IsExport words.now command → HasExport D.told D.meaning D.faults command result.0 disk result.1 (W.given sink.old) (W.given sink.new)
        × (source.new ≡ source.old) × (result.2 ≡ clock) }
    ensures sample { (seed rows : ℕ) → IsSample words.now seed rows → SampleTo result.0 seed rows (W.given sink.old) (W.given sink.new)
        × (source.new ≡ source.old) × (result.1 ≡ disk) × (result.2 ≡ clock) }
    ensures usage { result.0 ≡ Status.Usage → (command : AnyCommand) → ¬ (IsCommand words.now command) }
    ensures no_command { ((command : AnyCommand) → ¬ (IsCommand words.now command)) → (result.0 ≡ Status.Usage) ⊎ (result.0 ≡ Status.Memory) }
    ensures no_command_keeps { ((command : AnyCommand) → ¬ (IsCommand words.now command)) → (source.new ≡ source.old) × (sink.new ≡ sink.old) × (result.1 ≡ disk) × (result.2 ≡ clock) }
    ensures read { IsReadCause result.0 (S.faults source.old) (S.faults source.new) }
    ensures write { IsWriteCause result.0 (W.faults sink.old) (W.faults sink.new) }
    ensures says { TopSays result.0 D.told (D.meaning disk).reads (D.faults disk) (D.faults result.1) (L.faults lobby) (L.faults result.3) }
    ensures run_over { IsRun words.now → D.told → (why : OpenFault) → IsOfBytes why → OpenSays (D.meaning disk).reads why → IsEndOr (status_of why) result.0 }
    ensures run_completes { IsRun words.now → D.told → IsReady (D.meaning disk).reads → (bytes : List ℕ) → S.left source.old ≡ Some bytes → IsScript bytes
        → NoneRose (S.faults source.old) (S.faults source.new) → NoneRose (W.faults sink.old) (W.faults sink.new) → NoneRose (D.faults disk) (D.faults result.1) → IsDoneOrShort result.0 }
    ensures init_over { (password : List ℕ) (limit : ℕ) → IsInit words.now password limit → D.told → IsSelectedFormatted (D.meaning disk).reads → IsEndOr Status.Formatted result.0 }
    ensures init_completes { (password : List ℕ) (limit : ℕ) → IsInit words.now password limit → D.told → IsUnformatted (D.meaning disk).reads
        → NoneRose (D.faults disk) (D.faults result.1) → IsDoneOrShort result.0 }
    ensures exports_over { (command : AnyExport) → IsExport words.now command → D.told → (why : LookFault) → IsOfLook why → LookSays (D.meaning disk).reads why → IsEndOr (look_status why) result.0 }
    ensures exports_complete { (command : AnyExport) → IsExport words.now command → D.told → CanBeRead (D.meaning disk).reads
        → NoneRose (W.faults sink.old) (W.faults sink.new) → NoneRose (D.faults disk) (D.faults result.1) → IsDoneOrShort result.0 }
    ensures sample_completes { (seed rows : ℕ) → IsSample words.now seed rows → NoneRose (W.faults sink.old) (W.faults sink.new) → IsDoneOrShort result.0 }
    ensures serve { (port workers connections : ℕ) → IsServe words.now port workers connections
        → (HasServed (means_of D.told D.meaning D.faults C.ticking) result.0 (asked_of connections) disk result.1 clock result.2 (L.visits lobby) (L.visits result.3) (L.faults lobby) (L.faults result.3)
        ⊎ (IsUnopened (means_of D.told D.meaning D.faults C.ticking) result.0 disk result.1 clock result.2 × (result.3 ≡ lobby))) }
    ensures serve_keeps { (port workers connections : ℕ) → IsServe words.now port workers connections → (source.new ≡ source.old) × (sink.new ≡ sink.old) }
    ensures serve_over { (port workers connections : ℕ) → IsServe words.now port workers connections → D.told → (why : OpenFault) → IsOfBytes why → OpenSays (D.meaning disk).reads why → IsEndOr (status_of why) result.0 }
    ensures serve_completes { (port workers connections : ℕ) → IsServe words.now port workers connections → D.told → IsReady (D.meaning disk).reads
        → NoneRose (D.faults disk) (D.faults result.1) → NoneRose (L.faults lobby) (L.faults result.3) → IsDoneOrShort result.0 }
    ensures lobby { ((port workers connections : ℕ) → ¬ (IsServe words.now port workers connections)) → result.3 ≡ lobby }
{
    if says_serve(words) {
        return serve_by_words(rt, alloc, words, disk, clock, lobby);
    }
    let (status, disk, clock) = alone(alloc, words, source, sink, disk, clock);
    (status, disk, clock, lobby)
}

fn says_serve(words: &[Text]) -> bool
    ensures yes { result ≡ true → SaysServe words.now }
    ensures no { result ≡ false → ¬ (SaysServe words.now) }
{
    match words.split_first() {
        Some((word, _)) => word.as_str() == "serve",
        None => false,
    }
}

// Does what words say that begin with `serve`.
fn serve_by_words<R: Threads + Wait + Sync, D: Disk, C: Clock, L: Lobby>(
    rt: &R,
    alloc: Global,
    words: &[Text],
    disk: D,
    clock: C,
    lobby: L,
) -> (Status, D, C, L)
    requires { SaysServe words.now }
    ensures serve { (port workers connections : ℕ) → IsServe words.now port workers connections
        → (HasServed (means_of D.told D.meaning D.faults C.ticking) result.0 (asked_of connections) disk result.1 clock result.2 (L.visits lobby) (L.visits result.3) (L.faults lobby) (L.faults result.3)
        ⊎ (IsUnopened (means_of D.told D.meaning D.faults C.ticking) result.0 disk result.1 clock result.2 × (result.3 ≡ lobby))) }
    ensures serve_over { (port workers connections : ℕ) → IsServe words.now port workers connections → D.told → (why : OpenFault) → IsOfBytes why → OpenSays (D.meaning disk).reads why → IsEndOr (status_of why) result.0 }
    ensures serve_completes { (port workers connections : ℕ) → IsServe words.now port workers connections → D.told → IsReady (D.meaning disk).reads
        → NoneRose (D.faults disk) (D.faults result.1) → NoneRose (L.faults lobby) (L.faults result.3) → IsDoneOrShort result.0 }
    ensures usage { result.0 ≡ Status.Usage → (command : AnyCommand) → ¬ (IsCommand words.now command) }
    ensures no_command { ((command : AnyCommand) → ¬ (IsCommand words.now command)) → (result.0 ≡ Status.Usage) ⊎ (result.0 ≡ Status.Memory) }
    ensures no_command_keeps { ((command : AnyCommand) → ¬ (IsCommand words.now command)) → (result.1 ≡ disk) × (result.2 ≡ clock) × (result.3 ≡ lobby) }
    ensures read { (count : ℕ) → IsReadCause result.0 count count }
    ensures write { (count : ℕ) → IsWriteCause result.0 count count }
    ensures says { TopSays result.0 D.told (D.meaning disk).reads (D.faults disk) (D.faults result.1) (L.faults lobby) (L.faults result.3) }
{
    one_command();
    one_cause();
    match command_of(alloc, words) {
        Ok(
            Some(
                Command::Serve {
                    port,
                    workers,
                    connections,
                },
            ),
        ) => serve(rt, alloc, port, workers, connections, disk, clock, lobby),
        Ok(_) => (Status::Usage, disk, clock, lobby),
        Err(_) => (Status::Memory, disk, clock, lobby),
    }
}

/// Does what the words after the program's name say, where that needs no lobby: all but `serve`. What is
/// left of the disk and the clock comes back.
///
/// `run` opens the store on the disk, and reads the source as a script. `init --sys-password TEXT
/// [--limit N]` makes a store on the disk. `trail` gives the sink the trail of what is kept on the
/// disk, as comma-separated values, and `check` its counts, both without opening the store. `sample
/// --seed N --rows N` gives it the summary of what a sample's asks leave in a new store of its own, in
/// memory. Want of memory may come in place of any answer: to words that are a command it is the
/// command's.
pub fn alone<S: Source, W: Sink, D: Disk, C: Clock>(
    alloc: Global,
    words: &[Text],
    source: &mut S,
    sink: &mut W,
    disk: D,
    clock: C,
) -> (Status, D, C)
    requires alone { ¬ (SaysServe words.now) }
    ensures run { IsRun words.now → HasRun (means_of D.told D.meaning D.faults C.ticking) result.0 (S.left source.old) (S.left source.new) disk result.1 clock result.2 (W.given sink.old) (W.given sink.new)
        ⊎ (IsUnopened (means_of D.told D.meaning D.faults C.ticking) result.0 disk result.1 clock result.2 × (source.new ≡ source.old) × (sink.new ≡ sink.old)) }
    ensures init { (password : List ℕ) (limit : ℕ) → IsInit words.now password limit → HasInit D.told D.meaning D.faults result.0 password limit disk result.1
        × (source.new ≡ source.old) × (sink.new ≡ sink.old) × (result.2 ≡ clock) }
    ensures exports { (command : AnyExport) → IsExport words.now command → HasExport D.told D.meaning D.faults command result.0 disk result.1 (W.given sink.old) (W.given sink.new)
        × (source.new ≡ source.old) × (result.2 ≡ clock) }
    ensures sample { (seed rows : ℕ) → IsSample words.now seed rows → SampleTo result.0 seed rows (W.given sink.old) (W.given sink.new)
        × (source.new ≡ source.old) × (result.1 ≡ disk) × (result.2 ≡ clock) }
    ensures usage { result.0 ≡ Status.Usage → (command : AnyCommand) → ¬ (IsCommand words.now command) }
    ensures no_command { ((command : AnyCommand) → ¬ (IsCommand words.now command)) → (result.0 ≡ Status.Usage) ⊎ (result.0 ≡ Status.Memory) }
    ensures no_command_keeps { ((command : AnyCommand) → ¬ (IsCommand words.now command)) → (source.new ≡ source.old) × (sink.new ≡ sink.old) × (result.1 ≡ disk) × (result.2 ≡ clock) }
    ensures read { IsReadCause result.0 (S.faults source.old) (S.faults source.new) }
    ensures write { IsWriteCause result.0 (W.faults sink.old) (W.faults sink.new) }
    ensures says { EndSays result.0 D.told (D.meaning disk).reads (D.faults disk) (D.faults result.1) }
    ensures run_over { IsRun words.now → D.told → (why : OpenFault) → IsOfBytes why → OpenSays (D.meaning disk).reads why → IsEndOr (status_of why) result.0 }
    ensures run_completes { IsRun words.now → D.told → IsReady (D.meaning disk).reads → (bytes : List ℕ) → S.left source.old ≡ Some bytes → IsScript bytes
        → NoneRose (S.faults source.old) (S.faults source.new) → NoneRose (W.faults sink.old) (W.faults sink.new) → NoneRose (D.faults disk) (D.faults result.1) → IsDoneOrShort result.0 }
    ensures init_over { (password : List ℕ) (limit : ℕ) → IsInit words.now password limit → D.told → IsSelectedFormatted (D.meaning disk).reads → IsEndOr Status.Formatted result.0 }
    ensures init_completes { (password : List ℕ) (limit : ℕ) → IsInit words.now password limit → D.told → IsUnformatted (D.meaning disk).reads
        → NoneRose (D.faults disk) (D.faults result.1) → IsDoneOrShort result.0 }
    ensures exports_over { (command : AnyExport) → IsExport words.now command → D.told → (why : LookFault) → IsOfLook why → LookSays (D.meaning disk).reads why → IsEndOr (look_status why) result.0 }
    ensures exports_complete { (command : AnyExport) → IsExport words.now command → D.told → CanBeRead (D.meaning disk).reads
        → NoneRose (W.faults sink.old) (W.faults sink.new) → NoneRose (D.faults disk) (D.faults result.1) → IsDoneOrShort result.0 }
    ensures sample_completes { (seed rows : ℕ) → IsSample words.now seed rows → NoneRose (W.faults sink.old) (W.faults sink.new) → IsDoneOrShort result.0 }
{
    one_command();
    one_cause();
    never_damaged();
    match command_of(alloc, words) {
        Ok(Some(command)) => obey(alloc, command, source, sink, disk, clock),
        Ok(None) => (Status::Usage, disk, clock),
        Err(_) => (Status::Memory, disk, clock),
    }
}

// Does the command.
fn obey<S: Source, W: Sink, D: Disk, C: Clock>(
    alloc: Global,
    command: Command,
    source: &mut S,
    sink: &mut W,
    disk: D,
    clock: C,
) -> (Status, D, C)
    requires alone { (port workers connections : ℕ) → command ≡ Command.Serve port workers connections → ⊥ }
    requires limit { (password : List ℕ) (limit : ℕ) → command ≡ Command.Init password limit → IsLimit limit }
    ensures run { command ≡ Command.Run → HasRun (means_of D.told D.meaning D.faults C.ticking) result.0 (S.left source.old) (S.left source.new) disk result.1 clock result.2 (W.given sink.old) (W.given sink.new)
        ⊎ (IsUnopened (means_of D.told D.meaning D.faults C.ticking) result.0 disk result.1 clock result.2 × (source.new ≡ source.old) × (sink.new ≡ sink.old)) }
    ensures init { (password : List ℕ) (limit : ℕ) → command ≡ Command.Init password limit → HasInit D.told D.meaning D.faults result.0 password limit disk result.1
        × (source.new ≡ source.old) × (sink.new ≡ sink.old) × (result.2 ≡ clock) }
    ensures exports { (what : AnyExport) → command ≡ as_command what → HasExport D.told D.meaning D.faults what result.0 disk result.1 (W.given sink.old) (W.given sink.new)
        × (source.new ≡ source.old) × (result.2 ≡ clock) }
    ensures sample { (seed rows : ℕ) → command ≡ Command.Sample seed rows → SampleTo result.0 seed rows (W.given sink.old) (W.given sink.new)
        × (source.new ≡ source.old) × (result.1 ≡ disk) × (result.2 ≡ clock) }
    ensures read { IsReadCause result.0 (S.faults source.old) (S.faults source.new) }
    ensures write { IsWriteCause result.0 (W.faults sink.old) (W.faults sink.new) }
    ensures says { EndSays result.0 D.told (D.meaning disk).reads (D.faults disk) (D.faults result.1) }
    ensures no_usage { result.0 ≡ Status.Usage → ⊥ }
{
    match command {
        Command::Run => run(alloc, source, sink, disk, clock),
        Command::Init { password, limit } => {
            let mut disk = disk;
            let status = init::<D, C>(alloc, &mut disk, password.as_str(), limit);
            (status, disk, clock)
        }
        Command::Trail => {
            let (status, disk) = export::<W, D, C>(alloc, Export::Trail, sink, disk);
            (status, disk, clock)
        }
        Command::Check => {
            let (status, disk) = export::<W, D, C>(alloc, Export::Check, sink, disk);
            (status, disk, clock)
        }
        Command::Sample { seed, rows } => (sample(alloc, sink, seed, rows), disk, clock),
        Command::Serve { .. } => unreachable!(),
    }
}
