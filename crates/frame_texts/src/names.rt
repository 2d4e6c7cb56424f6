//! Words that name values.

ghost use Rattle.std.specs.Prelude.{◌≡◌, map};
ghost use Rattle.frame_texts.specs.Names.{value_named};

/// The value of the first of these names that the word is.
pub fn value_named<T: Copy>(word: &[u8], names: &[(&[u8], T)]) -> Option<T>
    ensures { result ≡ value_named (map (λ n. (n.0.now, n.1)) names.now) word.now }
{
    match names {
        [] => None,
        [(name, value), others @ ..] => {
            if word == *name {
                Some(*value)
            } else {
                value_named(word, others)
            }
        }
    }
}
