// Testers whose records are read as rows. Judges and checkers are written for any of them: what they read is the
// history and the notes that a tester hands out, and this says what of the rows these tell.
ghost use Rattle.std.specs.Prelude.{◌≡◌, ℕ, ◌*◌, List, true, refl};
ghost use Rattle.history.specs.Space.{met};
ghost use Rattle.values.specs.Sizes.{threads, capacity};
ghost use Rattle.stepping.specs.Shape.{shape_of};
ghost use Rattle.recording_meaning.specs.Reading.{notes_of, no_notes};
ghost use Rattle.recording_meaning.specs.AsRows.{history_in_shape, zeros_alike};

use recording::consistency_tester::ConsistencyTester;
use recording::linearizability::LinearizabilityTester;
use recording::sequential_consistency::SequentialConsistencyTester;

pub trait AsRows: ConsistencyTester {
    // The notes of the operation at a place, as the rows have them.
    ghost needs: { Self → ℕ → List ℕ };

    // A tester in shape holds a history in shape.
    ghost sound: { (t : Self) → Self.shaped t ≡ true → shape_of (Self.held t) ≡ true };

    // The notes handed out are met where those of the rows are.
    ghost alike: { (t : Self) (i : ℕ) (ps : List ℕ) → met (notes_of (Self.noted t) i) ps ≡ met (needs t i) ps };
}

impl AsRows for LinearizabilityTester {
    ghost needs = { λ t. notes_of t.notes };

    ghost sound = { history_in_shape };

    ghost alike = { λ t i ps. refl };
}

impl AsRows for SequentialConsistencyTester {
    ghost needs = { λ t. no_notes };

    ghost sound = { λ t e. e };

    ghost alike = { λ t. zeros_alike (capacity * threads) };
}
