// The host call for C: the one symbol that the static library exports.
#![tactic(auto)]

ghost use Rattle.std.specs.Prelude.{◌≡◌};
ghost use Rattle.host.specs.Call.{call_number, call_answer};

// host's call, with its clauses. For C each slice is a pointer and a length.
#[unsafe(no_mangle)]
pub extern "C" fn kilteshva_judge(file: &[u8], model: u32, budget: u64, answer: &mut [u8]) -> u32
    ensures number { result ≡ call_number model answer.old }
    ensures bytes { answer.new ≡ call_answer file.now model budget answer.old }
{
    host::kilteshva_judge(file, model, budget, answer)
}
