// The word rule of document 02, M-101, "31 × (31 × word + wire) + body, modulo 2^32", and what undoes it, M-105.
ghost use Rattle.std.specs.Prelude.{◌≡◌, ◌*◌, ◌%◌};
ghost use Rattle.model.specs.Word.{enter, over_thirty_one, leave};

use model::Receipt;

const FACTOR: u32 = 31;

// "3,186,588,639, which times 31 is 1 modulo 2^32".
const INVERSE: u32 = 3186588639;

// 2^32.
pub const MODULUS: u64 = 4294967296;

// 31 times a word, wrapped: for this rule, and for document 01's before it.
pub fn product(word: u32) -> u32
    ensures { result ≡ 31 * word % 4294967296 }
{
    word.wrapping_mul(FACTOR)
}

// What a receipt makes of a word.
pub fn enter(word: u32, receipt: Receipt) -> u32
    ensures { result ≡ enter word receipt }
{
    product(product(word).wrapping_add(receipt.channel)).wrapping_add(receipt.body)
}

// A word over 31, wrapped: 31 times what comes out, wrapped, is the word.
fn over(word: u32) -> u32
    ensures { result ≡ over_thirty_one word }
{
    word.wrapping_mul(INVERSE)
}

// What a word was before a receipt entered it.
#[tactic(auto, using(model::proofs::laws::WordLaws::difference), unfolding(model::specs::Word::leave))]
pub fn leave(word: u32, receipt: Receipt) -> u32
    ensures { result ≡ leave word receipt }
{
    over(over(word.wrapping_sub(receipt.body)).wrapping_sub(receipt.channel))
}
