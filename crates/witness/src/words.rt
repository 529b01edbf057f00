// The words of a return, compared with what a proposed order has.
ghost use Rattle.std.specs.Prelude.{◌≡◌, [], ◌∷◌};
ghost use Rattle.witness.specs.Words.{words_of};
ghost use Rattle.witness.specs.Checking.{same_words};

use families::Ret;
use values::coded::Coded;

// A place of an order takes this many words: the thread, the return's number in its family, how many values
// it carries, and the value as a corpus file writes it.
pub const WORDS: usize = 4;

// Whether the words are those of the return.
#[tactic(auto, unfolding(crate::specs::Words::words_of, crate::specs::Checking::same_words))]
pub(crate) fn describes(ret: Ret, words: Coded) -> bool
    ensures { result ≡ same_words (words_of ret) (words.number ∷ words.count ∷ words.word ∷ []) }
{
    Coded::from(ret) == words
}
