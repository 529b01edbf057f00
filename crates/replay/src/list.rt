// The lists, and what the tally says of each.

#[derive(Clone, Copy, PartialEq, Eq)]
pub enum List {
    Objects,
    Events,
    Histories,
    Orders,
    Files,
}

impl List {
    // The file that has it.
    pub fn path(self) -> &'static str {
        match self {
            List::Objects => "objects.txt",
            List::Events => "events.txt",
            List::Histories => "histories.txt",
            List::Orders => "orders.txt",
            List::Files => "files.txt",
        }
    }

    // What answers are grouped by: the families, or the models in the list of files.
    pub fn groups(self) -> [&'static str; 3] {
        match self {
            List::Files => ["sequential consistency", "linearizability", "no model"],
            _ => ["register", "write-once register", "stack"],
        }
    }

    // What is answered in a group: what was called or, in the list of files, what the call came to.
    pub fn calls(self) -> [&'static str; 3] {
        match self {
            List::Objects => ["invoke", "is_valid_step", "is_valid_history"],
            List::Events => ["on_invoke", "on_return", "on_invret"],
            List::Histories | List::Orders => {
                ["sequential consistency", "linearizability", "other"]
            }
            List::Files => ["judged", "files refused", "calls refused"],
        }
    }

    // What its lines start, if they start anything.
    pub fn starts(self) -> Option<&'static str> {
        match self {
            List::Objects => Some("objects"),
            List::Events => Some("sequences to both testers"),
            List::Histories => Some("histories under three budgets"),
            List::Orders => Some("histories with proposed orders"),
            List::Files => None,
        }
    }
}
