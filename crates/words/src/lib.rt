// Words that are lent: the parts that they are cut into, and whether one is too large.
#![tactic(auto)]

ghost use Rattle.std.specs.Prelude.{◌≡◌, true, ◌↔◌, ◌+◌, ◌*◌, ◌≤◌, length};
ghost use Rattle.words.specs.Part.{part};
ghost use Rattle.words.specs.Some.{Some};

// Part k of words that are cut into parts of w.
pub fn part_at(words: &[u32], k: usize, w: usize) -> &[u32]
    requires { k * w + w ≤ length words.now }
    ensures { result.now ≡ part w k words.now }
{
    let start = k * w;
    let end = start + w;
    &words[start..end]
}

// Whether some word is at least the bound.
pub fn any_from(words: &[u32], bound: u32) -> bool
    ensures { (result ≡ true) ↔ Some (λ x. bound ≤ x) words.now }
{
    words.iter().any(|word| *word >= bound)
}
