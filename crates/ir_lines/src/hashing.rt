//! Names as keys of a table.

ghost use Rattle.std.specs.Prelude.{◌≡◌, [], ◌∷◌};
ghost use Rattle.std.proofs.Common.{rules};
ghost use Rattle.std.specs.Str.{bytes_eq};
ghost use Rattle.std.specs.Cmp.{on_equiv, on_per, partial_equiv_from_equiv};
ghost use Rattle.std.specs.Cmp.Lexicographic.{nat_list_eq_equiv};
ghost use Rattle.std.specs.Cmp.Rules.{hashing};
ghost use Rattle.std.specs.Hash.FoldHasher as folding;
ghost use Rattle.ir_lines.specs.Hashing.{spread};

use std::hash::{BuildHasher, FoldHasher, Hash, Hasher};

/// A name as a key, whose bytes are hashed in one write.
#[derive(Clone, Copy)]
pub struct Key<'n> {
    pub bytes: &'n [u8],
}

impl<'n> PartialEq for Key<'n> {
    ghost eq = { λ one other. bytes_eq one.bytes.now other.bytes.now };

    ghost laws = { on_per (λ one. one.bytes.now) (partial_equiv_from_equiv nat_list_eq_equiv) };

    fn eq(&self, other: &Self) -> bool {
        self.bytes == other.bytes
    }
}

impl<'n> Eq for Key<'n> {
    ghost laws = { on_equiv (λ one. one.bytes.now) nat_list_eq_equiv };
}

impl<'n> Hash for Key<'n> {
    ghost hash_input = { λ name. name.bytes.now ∷ [] };

    ghost respects_eq = { Prim.search (hashing, rules) };

    fn hash<H: Hasher>(&self, state: &mut H) {
        state.write(self.bytes);
    }
}

/// The kit's hasher of words of eight bytes, whose number is spread over the 32 bits that a table reads.
#[derive(Clone, Copy)]
pub struct NameHasher {
    inner: FoldHasher,
}

impl Hasher for NameHasher {
    ghost write = { λ s bytes. record { inner = folding.write s.inner bytes } };

    ghost finish = { λ s. spread (folding.finish s.inner) };

    fn finish(&self) -> u64 {
        spread(self.inner.finish())
    }

    fn write(&mut self, bytes: &[u8]) {
        self.inner.write(bytes);
    }
}

fn spread(hash: u64) -> u64
    ensures { result ≡ spread hash }
{
    (hash % (1 << 24)) + ((hash % 16) * (1 << 24)) + ((hash / (1 << 60)) * (1 << 28))
}

/// Makes a hasher of a name.
#[derive(Clone, Copy)]
pub struct NameHashing;

impl BuildHasher for NameHashing {
    type Hasher = NameHasher;

    ghost build_hasher = { λ s. record { inner = folding.initial } };

    fn build_hasher(&self) -> NameHasher {
        NameHasher {
            inner: FoldHasher::default(),
        }
    }
}
