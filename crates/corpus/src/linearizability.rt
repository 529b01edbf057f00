// A file loaded into a tester of linearizability.
ghost use Rattle.std.specs.Prelude.{◌≡◌};
ghost use Rattle.recording_meaning.specs.Models.{linearizability_model};
ghost use Rattle.corpus.specs.Load.{load_of};
ghost use Rattle.corpus.specs.LoadAnswers.{as_linearizability};

use crate::feeding::feed;
use crate::load::Loaded;
use format::header::read_header;
use recording::consistency_tester::ConsistencyTester;
use recording::linearizability::LinearizabilityTester;

// Loads a file: its header, and then its events.
pub fn load(file: &[u8]) -> Loaded<LinearizabilityTester>
    ensures { result ≡ as_linearizability (load_of linearizability_model file.now) }
{
    match read_header(file) {
        Err(unread) => Loaded {
            number: u8::from(unread.why),
            place: 0,
            tester: LinearizabilityTester::new(unread.start).tester,
        },
        Ok(header) => {
            let start = header.value;
            let tester = LinearizabilityTester::new(start).tester;
            feed(tester, file, header.next, start.kind)
        }
    }
}
