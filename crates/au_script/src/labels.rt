//! The numbers of a script's clients.
ghost use Rattle.std.specs.Prelude.{◌≡◌, ◌<◌, ◌≤◌, ◌+◌, ◌-◌, [], length, slice_get, IfOk, OnOk, OnErr};
ghost use Rattle.au_script.specs.Labels.{number_of, used_with};

use au_base::{ClientNo, Memory, Text};
use indexmap::IndexSet;
use std::alloc::Global;
use std::marker::Model;

/// The labels that a script has used, in the order of their first use. Contracts see their list.
#[derive(Drop)]
pub struct Labels {
    used: IndexSet<Text>,
}

impl Model for Labels {
    ghost use Rattle.std.specs.Prelude.{List, ℕ};

    ghost Value = { List (List ℕ) };

    ghost view = { λ l. l.used.keys };
}

impl Labels {
    /// No label is used yet.
    pub fn new(alloc: Global) -> Self
        ensures { result ≡ [] }
    {
        Labels {
            used: IndexSet::new(alloc),
        }
    }

    /// How many labels are used.
    pub fn len(&self) -> usize
        ensures { result ≡ length self.now }
    {
        self.used.len()
    }

    /// The number of the client with this label: its place among the labels used, from 1. One that
    /// isn't used yet goes last. A script's bytes are more than its labels, and at most 4,294,967,295.
    pub fn client_of(&mut self, alloc: Global, label: &Text) -> Result<ClientNo, Memory>
        requires { length self.old < u32.MAX }
        ensures used { OnOk result (self.new ≡ used_with self.old label.now) }
        ensures number { IfOk result (λ client. client.0 ≡ number_of self.old label.now) }
        ensures place { IfOk result (λ client. slice_get self.new (client.0 - 1) ≡ Some label.now) }
        ensures grows { length self.new ≤ length self.old + 1 }
        ensures err { OnErr result (self.new ≡ self.old) }
    {
        if let Some(place) = self.used.get_index_of(label) {
            return Ok(ClientNo(place as u32 + 1));
        }
        let (place, _) = self.used.insert_full(label.clone()?)?;
        Ok(ClientNo(place as u32 + 1))
    }
}
