//! A connection in memory.
ghost use Rattle.std.specs.Prelude.{◌≡◌, ◌<◌, Some, length};
ghost use Rattle.au_io.specs.Faults.{HasRisen, Counts, CountsShort, KeepsShort, KeepsPlan};
ghost use Rattle.au_io.specs.MemLink.{link_faults};
ghost use Rattle.au_io.specs.MemSource.{source_left, source_taken, source_plan};
ghost use Rattle.au_io.specs.MemSink.{sink_given, sink_short, sink_plan};
ghost use Rattle.au_io.specs.Stream.{Takes, TakesMore, StaysTold, IsTakeCause, Gives, IsGiveCause};

use crate::{Gave, Link, MemSink, MemSource, Sink, Source, Stream, Took};

/// A connection in memory: a source and a sink.
#[derive(Debug, Drop)]
pub struct MemLink {
    /// What is taken of it.
    pub source: MemSource,
    /// What is given to it.
    pub sink: MemSink,
}

impl Stream for MemLink {
    ghost left = { λ link. Some (source_left link.source) };

    ghost taken = { λ link. Some (source_taken link.source) };

    ghost given = { λ link. Some (sink_given link.sink) };

    ghost faults = { λ link. link_faults link };
}

impl Source for MemLink {
    ghost plan = { λ link. Some (source_plan link.source) };

    /// Takes of the source, as its own `take` says. The sink stays as it was.
    fn take(&mut self, room: &mut [u8]) -> Took
        requires { 0 < length room.old }
        ensures bytes { Takes (Some (source_left self.old.source)) (Some (source_left self.new.source)) room.new result }
        ensures told { StaysTold (Some (source_left self.old.source)) (Some (source_left self.new.source)) }
        ensures taken { TakesMore (Some (source_taken self.old.source)) (Some (source_taken self.new.source)) room.new result }
        ensures given { Some (sink_given self.new.sink) ≡ Some (sink_given self.old.sink) }
        ensures cause { IsTakeCause (link_faults self.old) (link_faults self.new) result }
        ensures counted { Counts (link_faults self.old) (link_faults self.new) (result ≡ Took.Failed) }
        ensures planned { KeepsPlan (Some (source_plan self.old.source)) (Some (source_plan self.new.source)) (result ≡ Took.Failed) ⊥ }
        ensures sink { self.new.sink ≡ self.old.sink }
    {
        self.source.take(room)
    }
}

impl Sink for MemLink {
    ghost short = { λ link. sink_short link.sink };

    ghost plan = { λ link. Some (sink_plan link.sink) };

    /// Gives to the sink, as its own `give` says. The source stays as it was.
    fn give(&mut self, bytes: &[u8]) -> Gave
        requires { 0 < length bytes.now }
        ensures bytes { Gives (Some (sink_given self.old.sink)) (Some (sink_given self.new.sink)) bytes.now result }
        ensures left { Some (source_left self.new.source) ≡ Some (source_left self.old.source) }
        ensures taken { Some (source_taken self.new.source) ≡ Some (source_taken self.old.source) }
        ensures cause { IsGiveCause (link_faults self.old) (link_faults self.new) result }
        ensures counted { Counts (link_faults self.old) (link_faults self.new) (result ≡ Gave.Failed) }
        ensures short { CountsShort (sink_short self.old.sink) (sink_short self.new.sink) (result ≡ Gave.Failed) }
        ensures listed { KeepsShort (Some (sink_plan self.old.sink)) (sink_short self.old.sink) (sink_short self.new.sink) }
        ensures planned { KeepsPlan (Some (sink_plan self.old.sink)) (Some (sink_plan self.new.sink)) (result ≡ Gave.Failed)
            (HasRisen (sink_short self.old.sink) (sink_short self.new.sink)) }
        ensures source { self.new.source ≡ self.old.source }
    {
        self.sink.give(bytes)
    }
}

impl Link for MemLink {
    /// Nothing happens: a link in memory has no peer that reads.
    fn shut(&mut self)
        ensures left { Some (source_left self.new.source) ≡ Some (source_left self.old.source) }
        ensures taken { Some (source_taken self.new.source) ≡ Some (source_taken self.old.source) }
        ensures given { Some (sink_given self.new.sink) ≡ Some (sink_given self.old.sink) }
        ensures faults { link_faults self.new ≡ link_faults self.old }
        ensures short { sink_short self.new.sink ≡ sink_short self.old.sink }
        ensures same { self.new ≡ self.old }
    {}
}
