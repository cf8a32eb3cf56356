//! The bytes of a script between its source and its lines.
ghost use Rattle.std.specs.Prelude.{◌≡◌, ◌+◌, ◌<◌, ◌∷◌, [], ◌++◌, length, drop, take, IfOk, MatchOption};
ghost use Rattle.au_main.specs.Lines.{HasNoEnd, LF};

use crate::refill::Refill;
use au_base::Memory;
use au_base::limits::SCRIPT_BYTES;
use au_io::{Source, Took};
use std::alloc::Global;
use std::marker::Model;

// The most bytes that are taken of a source in one call.
const CHUNK: usize = 8192;

/// The part of a script that was taken of its source and not handed out as lines yet. It keeps one
/// chunk of the source and the place where the part begins, so that nothing moves when a line is
/// handed out.
#[derive(Drop)]
pub(crate) struct Pending {
    chunk: Vec<u8>,
    front: usize,
    end: usize,
    taken: u64,
}

impl Model for Pending {
    ghost use Rattle.std.specs.Prelude.{◌≤◌, ◌<◌, take, drop, vec_len};
    ghost use Rattle.au_main.specs.Lines.{script_limit};
    ghost use Rattle.au_main.specs.descent.Stretch.{Stretch};

    ghost Value = { Stretch };

    ghost view = { λ p. record { bytes = drop p.front (take p.end p.chunk.items); taken = p.taken } };

    ghost invariant = { λ p. (p.front ≤ p.end) × (p.end ≤ vec_len p.chunk) × (0 < vec_len p.chunk) × (p.taken ≤ script_limit) };
}

impl Pending {
    ghost use Rattle.std.specs.Prelude.{◌≤◌};
    ghost use Rattle.au_main.specs.Lines.{script_limit};
    ghost use Rattle.au_main.specs.descent.Stretch.{IsMoved, IsRefilled, IsRefillCause};

    /// Nothing was taken yet.
    pub(crate) fn new(alloc: Global) -> Result<Pending, Memory>
        ensures bytes { IfOk result (λ pending. pending.bytes ≡ []) }
        ensures taken { IfOk result (λ pending. pending.taken ≡ 0) }
    {
        Ok(Pending {
            chunk: vec![in alloc; 0; CHUNK]?,
            front: 0,
            end: 0,
            taken: 0,
        })
    }

    /// Moves what stands before the first LF to the end of the line, or everything where there is
    /// no LF. Whether there was one; it is gone then.
    pub(crate) fn move_line(&mut self, line: &mut Vec<u8>) -> Result<bool, Memory>
        ensures moved { IfOk result (IsMoved self.old.bytes self.new.bytes line.old.items line.new.items) }
        ensures taken { self.new.taken ≡ self.old.taken }
        ensures within { self.new.taken ≤ script_limit }
    {
        let bytes = &self.chunk[self.front..self.end];
        match end_of_line(bytes) {
            Some(at) => {
                line.extend_from_slice(&bytes[..at])?;
                self.front += at + 1;
                Ok(true)
            }
            None => {
                line.extend_from_slice(bytes)?;
                self.front = self.end;
                Ok(false)
            }
        }
    }

    /// Takes the next bytes of the source.
    pub(crate) fn refill<S: Source>(&mut self, source: &mut S) -> Refill
        requires { self.old.bytes ≡ [] }
        ensures within { self.new.taken ≤ script_limit }
        ensures refilled { IsRefilled self.old self.new (S.left source.old) (S.left source.new) result }
        ensures cause { IsRefillCause (S.faults source.old) (S.faults source.new) result }
    {
        self.front = 0;
        self.end = 0;
        let left = SCRIPT_BYTES - self.taken;
        self.chunk.truncate(left.clamp(1, CHUNK as u64) as usize);
        match source.take(&mut self.chunk) {
            Took::Bytes(_) if left == 0 => Refill::Beyond,
            Took::Bytes(count) => {
                self.end = count;
                self.taken += count as u64;
                Refill::More
            }
            Took::End => Refill::End,
            Took::Failed => Refill::Failed,
        }
    }
}

// The place of the first LF.
fn end_of_line(bytes: &[u8]) -> Option<usize>
    ensures { MatchOption result (HasNoEnd bytes.now) (λ at. (at < length bytes.now) × HasNoEnd (take at bytes.now) × (bytes.now ≡ take at bytes.now ++ LF ∷ drop (at + 1) bytes.now)) }
{
    for (at, byte) in bytes.iter().enumerate() {
        if *byte == b'\n' {
            return Some(at);
        }
    }
    None
}
