// Puts pieces into a file.
ghost use Rattle.std.specs.Prelude.{◌≡◌, ◌≤◌, ◌+◌, ◌∷◌, [], ℕ, length, IsErrOf};
ghost use Rattle.cy_store.specs.Files.{Holds};
ghost use Rattle.cy_store.specs.Write.{Put};
ghost use Rattle.cy_writer.specs.Writes.{PutsInto, IsPutOrNot};

use crate::WriteError;
use cy_store::Store;

/// Puts a piece at a place of a file.
pub(crate) fn put<S: Store>(
    store: &mut S,
    name: &str,
    at: u64,
    bytes: &[u8],
) -> Result<(), WriteError>
    requires { Holds (S.shows store.old).files name.now (λ old. at ≤ length old) }
    ensures puts { PutsInto name.now (Put name.now at bytes.now ∷ []) (at + length bytes.now)
        (λ files. files ≡ (S.shows store.old).files) (S.shows store.old) (S.shows store.new)
        result }
    ensures kept { (n : ℕ) → Holds (S.shows store.old).files name.now (λ old. n ≤ length old)
        → (IsErrOf result WriteError.Failed → ⊥) → Holds (S.shows store.new).files name.now
        (λ new. n ≤ length new) }
    ensures unbroken { IsErrOf result WriteError.Broken → ⊥ }
{
    store.put_at(name, at, bytes)?;
    Ok(())
}

/// Puts two pieces at places of a file, one after the other; the second at most behind the first.
pub(crate) fn put_both<S: Store>(
    store: &mut S,
    name: &str,
    at: u64,
    first: &[u8],
    second_at: u64,
    second: &[u8],
) -> Result<(), WriteError>
    requires there { Holds (S.shows store.old).files name.now (λ old. at ≤ length old) }
    requires follows { second_at ≤ at + length first.now }
    ensures puts { PutsInto name.now
        (Put name.now at first.now ∷ Put name.now second_at second.now ∷ [])
        (second_at + length second.now)
        (λ files. IsPutOrNot (Put name.now at first.now) (S.shows store.old).files files)
        (S.shows store.old) (S.shows store.new) result }
    ensures kept { (n : ℕ) → Holds (S.shows store.old).files name.now (λ old. n ≤ length old)
        → (IsErrOf result WriteError.Failed → ⊥) → Holds (S.shows store.new).files name.now
        (λ new. n ≤ length new) }
    ensures unbroken { IsErrOf result WriteError.Broken → ⊥ }
{
    put(store, name, at, first)?;
    put(store, name, second_at, second)
}
