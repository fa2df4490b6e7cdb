//! The counts of a walk.
ghost use Rattle.std.specs.Prelude.{◌≡◌, ◌+◌, ◌<◌};

use crate::tree::zone_tree::Tree;

/// How many nodes were visited, and how many labels compared.
///
/// Counts can only be made from a tree, can't be copied, and only rise. So code that has no tree
/// can only add to the counts that it is given.
#[derive(Drop)]
pub(crate) struct Counts {
    visits: u32,
    comparisons: u32,
}

impl Counts {
    pub(crate) fn over(_tree: &Tree) -> Counts
        ensures { result ≡ record { visits = 0; comparisons = 0 } }
    {
        Counts {
            visits: 0,
            comparisons: 0,
        }
    }

    pub(crate) fn visits(&self) -> u32
        ensures { result ≡ self.now.visits }
    {
        let Counts { visits, .. } = self;
        *visits
    }

    pub(crate) fn comparisons(&self) -> u32
        ensures { result ≡ self.now.comparisons }
    {
        let Counts { comparisons, .. } = self;
        *comparisons
    }

    pub(crate) fn count_visit(&mut self)
        requires { self.old.visits < 4294967295 }
        ensures { self.new ≡ record self.old { visits = self.old.visits + 1 } }
    {
        self.visits += 1;
    }

    pub(crate) fn count_comparison(&mut self)
        requires { self.old.comparisons < 4294967295 }
        ensures { self.new ≡ record self.old { comparisons = self.old.comparisons + 1 } }
    {
        self.comparisons += 1;
    }
}
