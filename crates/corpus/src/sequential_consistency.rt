// A file loaded into a tester of sequential consistency: the history that the tester of linearizability holds,
// without its notes.
ghost use Rattle.std.specs.Prelude.{◌≡◌};
ghost use Rattle.recording_meaning.specs.Models.{sequential_model};
ghost use Rattle.corpus.specs.Load.{load_of};
ghost use Rattle.corpus.specs.LoadAnswers.{as_sequential};

use crate::linearizability;
use crate::load::Loaded;
use recording::sequential_consistency::SequentialConsistencyTester;

// Loads a file.
pub fn load(file: &[u8]) -> Loaded<SequentialConsistencyTester>
    ensures { result ≡ as_sequential (load_of sequential_model file.now) }
{
    let loaded = linearizability::load(file);
    let history = loaded.tester.history;
    Loaded {
        number: loaded.number,
        place: loaded.place,
        tester: SequentialConsistencyTester { history },
    }
}
