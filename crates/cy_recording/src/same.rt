// A file compared with the record of a tape.
ghost use Rattle.std.specs.Prelude.{◌≡◌, length};
ghost use Rattle.cy_recording.specs.Recording.{IsWritable, source_of};
ghost use Rattle.cy_recording.specs.Compare.{SameAnswer, record_of_tape};
ghost use Rattle.cy_recording.specs.private.Unlike.{Told};
ghost use Rattle.cy_recording.specs.private.Judging.{Compares};

use crate::compared::Compared;
use crate::judged::{Found, judge};
use crate::known::Known;
use crate::shown::{Note, Shown};
use crate::{Played, SameError, write_record};
use cy_msg::Token;
use cy_store::Store;
use std::alloc::Global;
use std::marker::{Brand, PhantomData};

// A file of a store, with its name and its length.
#[derive(Drop)]
struct Lent<'a, S> {
    store: &'a mut S,
    name: &'a str,
    size: u64,
}

// The same as `same_record`, of a file whose length is known. It gives the reference back, so that
// its caller knows what became of the store.
fn compared_with<'a, S: Store, K: Known>(
    alloc: Global,
    lent: Lent<'a, S>,
    played: &Played<'_>,
    tape: &[Token],
) -> (Result<Option<u64>, SameError>, &'a mut S)
    requires writable { IsWritable (source_of played.now) tape.now }
    requires start { K.start ≡ S.shows lent.store.now }
    requires lender { K.lender ≡ lent.store.ghost_name }
    requires named { K.name ≡ lent.name.now }
    requires size { Told K.start.files K.name (λ file. lent.size ≡ length file) }
    ensures lender { result.1.ghost_name ≡ lent.entry.store.ghost_name }
    ensures answer { Compares K.name (record_of_tape K.name (source_of played.now) tape.now)
        K.start (S.shows result.1.now) result.0 }
{
    let Lent { store, name, size } = lent;
    let mut compared = Compared::<S, K> {
        store,
        name,
        alloc,
        header: Vec::new(alloc),
        size: 0,
        place: None,
        failed: false,
        shown: Shown::none().then(&Note::Create(name)),
        known: PhantomData,
    };
    let written = write_record(alloc, &mut compared, name, played, tape);
    let Compared {
        store,
        header,
        size: end,
        place: behind,
        failed,
        ..
    } = compared;
    let found = Found {
        name,
        header: &header,
        behind,
        end,
        size,
        failed,
    };
    let answer = judge(alloc, store, &found, written);
    (answer, store)
}

// This use of a reference that was given back ties it to the one that was lent.
fn take_back<S>(store: &mut S)
    ensures { store.new ≡ store.old }
{}

// The same of a reference that stays with its caller.
fn compared_at<S: Store>(
    alloc: Global,
    store: &mut S,
    name: &str,
    size: u64,
    played: &Played<'_>,
    tape: &[Token],
) -> Result<Option<u64>, SameError>
    requires writable { IsWritable (source_of played.now) tape.now }
    requires size { Told (S.shows store.old).files name.now (λ file. size ≡ length file) }
    ensures { Compares name.now (record_of_tape name.now (source_of played.now) tape.now)
        (S.shows store.old) (S.shows store.new) result }
{
    let (answer, back) = compared_with::<S, Brand>(alloc, Lent { store, name, size }, played, tape);
    take_back(back);
    answer
}

/// Where the file of a name first differs from the record that [`write_record`] writes of a tape:
/// none where it holds just that record.
///
/// The record is written section by section, and each is compared and dropped. The file is read in
/// pieces of at most 262,144 bytes, behind its header as far as it is the same, and its header
/// last.
pub fn same_record<S: Store>(
    alloc: Global,
    store: &mut S,
    name: &str,
    played: &Played<'_>,
    tape: &[Token],
) -> Result<Option<u64>, SameError>
    requires { IsWritable (source_of played.now) tape.now }
    ensures { SameAnswer name.now (record_of_tape name.now (source_of played.now) tape.now)
        (S.shows store.old) (S.shows store.new) result }
{
    let size = store.size(name)?;
    compared_at(alloc, store, name, size, played, tape)
}
