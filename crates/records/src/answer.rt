// An answer as bytes. From docs/RULES.md, "The answer".
ghost use Rattle.std.specs.Prelude.{◌≡◌};
ghost use Rattle.model.specs.BoardBytes as def;

use model::{ANSWER_LENGTH, Answer};

// Two words and four bytes. They are handed back, and not put in a part of the buffer, so that nothing is asked of a length;
// tried, the compiler makes the same code of both.
pub fn answer_bytes(x: Answer) -> [u8; ANSWER_LENGTH]
    ensures { result ≡ def.answer_bytes x }
{
    let [v0, v1, v2, v3] = x.value.to_le_bytes();
    let [c0, c1, c2, c3] = x.cycles.to_le_bytes();
    [
        v0,
        v1,
        v2,
        v3,
        c0,
        c1,
        c2,
        c3,
        x.hits,
        x.count,
        x.force as u8,
        0,
    ]
}
