//! Equality, order and hash of a text, all by its bytes.

ghost use Rattle.std.specs.Prelude.{Some, nat_eq, refl};
ghost use Rattle.std.specs.Str.{bytes_eq};
ghost use Rattle.std.specs.Ordering.{nat_cmp};
ghost use Rattle.std.specs.Cmp.Lexicographic.{slice_cmp};
ghost use Rattle.std.proofs.Common.{rules};
ghost use Rattle.std.specs.Cmp.Rules.{comparing, hashing};
ghost use Rattle.token_text.specs.Hashed.{quads};

use crate::texts::Text;
use std::cmp::Ordering;
use std::hash::{Hash, Hasher};

impl PartialEq for Text {
    ghost eq = { λ a b. bytes_eq a b };

    ghost laws = { Prim.search (comparing, rules) };

    fn eq(&self, other: &Text) -> bool {
        self.as_bytes() == other.as_bytes()
    }
}

impl Eq for Text {
    ghost laws = { Prim.search (comparing, rules) };
}

impl PartialOrd for Text {
    ghost partial_cmp = { λ a b. Some (slice_cmp nat_cmp a b) };

    ghost laws = { Prim.search (comparing, rules) };

    fn partial_cmp(&self, other: &Text) -> Option<Ordering> {
        Some(self.cmp(other))
    }
}

impl Ord for Text {
    ghost cmp = { λ a b. slice_cmp nat_cmp a b };

    ghost total = { Prim.search (comparing, rules) };

    ghost matches_partial_cmp = { λ a b. refl };

    ghost matches_eq = { Prim.search (comparing, rules) };

    fn cmp(&self, other: &Text) -> Ordering {
        self.as_bytes().cmp(other.as_bytes())
    }
}

// Four bytes at a time, and last the fewer than four that are left. A hasher mixes after each, so
// that no label of a plain form undoes what stands before.
impl Hash for Text {
    ghost hash_input = { quads };

    ghost respects_eq = { Prim.search (hashing, rules) };

    #[tactic(auto, using(crate::proofs::Quads::next_quad, crate::proofs::Quads::last_quad))]
    fn hash<H: Hasher>(&self, state: &mut H) {
        let mut rest = self.as_bytes();
        while rest.len() >= 4 {
            let (quad, after) = rest.split_at(4);
            state.write(quad);
            rest = after;
        }
        state.write(rest);
    }
}
