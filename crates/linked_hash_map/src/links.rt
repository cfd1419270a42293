// The links of the nodes. A link that is read is tested before it is a node. Nodes are indices, and no boxes:
// they stand in words of a fixed number, which the caller lends and may read.
ghost use Rattle.std.specs.Prelude.{◌≡◌, ◌+◌, ◌<◌, length};
ghost use Rattle.rings.specs.Ring.{joined, detached, attached, moved, spliced};
ghost use Rattle.linked_hash_map.specs.Words.{Nodes};

// Makes b the next of a and a the previous of b, where both are nodes.
#[tactic(auto, unfolding(rings::specs::Ring::joined, rings::specs::Ring::linked))]
fn join(words: &mut [u64], nodes: usize, a: usize, b: usize)
    requires { Nodes (length words.old) nodes }
    ensures { words.new ≡ joined nodes words.old a b }
{
    if a < nodes {
        if b < nodes {
            words[5 * a + 4] = b as u64;
            words[5 * b + 3] = a as u64;
        }
    }
}

// Links x's neighbours to each other.
#[tactic(auto, unfolding(rings::specs::Ring::detached))]
fn detach(words: &mut [u64], nodes: usize, x: usize)
    requires { Nodes (length words.old) nodes × (x < nodes) }
    ensures { words.new ≡ detached nodes words.old x }
{
    let p = words[5 * x + 3] as usize;
    let q = words[5 * x + 4] as usize;
    join(words, nodes, p, q);
}

// Puts x right after s.
#[tactic(auto, unfolding(rings::specs::Ring::attached))]
pub fn attach(words: &mut [u64], nodes: usize, s: usize, x: usize)
    requires { Nodes (length words.old) nodes × (s < nodes) × (x < nodes) }
    ensures { words.new ≡ attached nodes words.old s x }
{
    let q = words[5 * s + 4] as usize;
    join(words, nodes, x, q);
    join(words, nodes, s, x);
}

// Takes x out of its ring and puts it right after s.
#[tactic(auto, unfolding(rings::specs::Ring::moved))]
pub fn move_after(words: &mut [u64], nodes: usize, s: usize, x: usize)
    requires { Nodes (length words.old) nodes × (s < nodes) × (x < nodes) }
    ensures { words.new ≡ moved nodes words.old s x }
{
    detach(words, nodes, x);
    attach(words, nodes, s, x);
}

// Puts the ring of s right after t as it is, by three links however many nodes it has; s is then alone.
#[tactic(auto, unfolding(rings::specs::Ring::spliced))]
pub fn splice(words: &mut [u64], nodes: usize, s: usize, t: usize)
    requires { Nodes (length words.old) nodes × (s < nodes) × (t < nodes) }
    ensures { words.new ≡ spliced nodes words.old s t }
{
    let first = words[5 * s + 4] as usize;
    if first == s {
        return;
    }
    let last = words[5 * s + 3] as usize;
    let next = words[5 * t + 4] as usize;
    join(words, nodes, t, first);
    join(words, nodes, last, next);
    join(words, nodes, s, s);
}

// Two rings: of s alone, and of t alone.
pub fn close_rings(words: &mut [u64], nodes: usize, s: usize, t: usize)
    requires { Nodes (length words.old) nodes }
    ensures { words.new ≡ joined nodes (joined nodes words.old s s) t t }
{
    join(words, nodes, s, s);
    join(words, nodes, t, t);
}
