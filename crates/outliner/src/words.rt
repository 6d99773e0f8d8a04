ghost use Rattle.std.specs.Prelude.{◌≡◌, ◌<◌, IfSome, IfNone, length, slice_index};
ghost use Rattle.std.specs.List.{Contains};
ghost use Rattle.std.specs.List.Sorted.{IsStrictlyIncreasing};
ghost use Rattle.rv64_decode.specs.Form.{InForm};
ghost use Rattle.loop_data.specs.LoopCode.{instr_among};
ghost use Rattle.loop_data.specs.Paths.{IsInOrder, addresses_of};

use loop_data::{Graph, Word};
use rv64_decode::{Instr, decode};

/// The place of the reached word at an address.
fn word_place(words: &[Word], x: u64) -> Option<usize>
    requires { IsStrictlyIncreasing (addresses_of words.now) }
    ensures found { IfSome result (λ i. (i < length words.now) × (slice_index (addresses_of words.now) i ≡ x)) }
    ensures none { IfNone result (¬ Contains (addresses_of words.now) x) }
{
    match words.binary_search_by_key(&x, |w| w.at) {
        Ok(i) => Some(i),
        Err(_) => None,
    }
}

/// What the reached word at an address stands for, with its immediate in its form.
pub(crate) fn instr_of(graph: &Graph, x: u64) -> Option<Instr>
    requires { IsInOrder graph.now }
    ensures value { result ≡ instr_among graph.now.words x }
    ensures form { IfSome result InForm }
{
    let words = graph.words.as_slice();
    match word_place(words, x) {
        Some(i) => decode(words[i].bits),
        None => None,
    }
}
