// Finding a host: the FNV-1a hash of a key, the slot of a key, and the owner at that slot. It says what the table says, and checks no roster.
#![tactic(auto)]

ghost use Rattle.std.specs.Prelude.{◌≡◌, ◌*◌, ◌%◌, ◌^◌, length};
ghost use Rattle.find.specs.Hash.{fnv32, stepped, hash_of};
ghost use Rattle.find.specs.Reply.{found, told, view_of, found_in};
ghost use Rattle.find.specs.Laws.{HashIsWord, HashGrows, RowsRise, FoundIsOwner, RefusedIsNothing, FindFixed, ViewFixed, FindInFixed};

use base::Refusal;

// Who serves a key: its slot, and the host that owns that slot.
#[derive(Clone, Copy, Debug, PartialEq, Eq)]
pub struct Owner {
    pub slot: usize,
    pub host: u16,
}

// The reading view: a lent table and the length that its maker states, the form that document 01 names.
#[derive(Clone, Copy, Debug, PartialEq, Eq)]
pub struct View<'a> {
    pub owners: &'a [u16],
    pub length: usize,
}

// FNV-1a at 32 bits: where the hash starts, and what it is multiplied by.
const START: u32 = 2_166_136_261;

const MULTIPLIER: u64 = 16_777_619;

// The product kept to its low 64 bits: the wrap is meant. A rule of either width steps by it.
fn wrapping_product(a: u64, b: u64) -> u64
    ensures { result ≡ a * b % 2 ^ 64 }
{
    a.wrapping_mul(b)
}

// The hash with one byte more.
#[tactic(auto, unfolding(crate::specs::Hash::stepped))]
fn step(hash: u32, byte: u8) -> u32
    ensures { result ≡ stepped fnv32 hash byte }
{
    let word = u64::from(hash ^ u32::from(byte));
    (wrapping_product(word, MULTIPLIER) % 4_294_967_296) as u32
}

// The 32-bit FNV-1a hash of a key, of any length.
#[tactic(auto, using(crate::proofs::Hashing::hash_fold))]
pub fn hash(key: &[u8]) -> u32
    ensures { result ≡ hash_of fnv32 key.now }
{
    key.iter().fold(START, |hash, byte| step(hash, *byte))
}

// The host for a key in a table of a stated length.
#[tactic(auto, using(crate::proofs::Replies::reply_rows))]
pub fn find(table: &[u16], stated: usize, key: &[u8]) -> Result<Owner, Refusal>
    ensures { told result ≡ found table.now stated key.now }
{
    if !u32::try_from(stated).is_ok_and(base::slots_fit) || table.len() != stated {
        return Err(Refusal::SlotCount);
    }
    if 4_096 < key.len() {
        return Err(Refusal::LongKey);
    }
    let slot = hash(key) as usize % stated;
    match table[slot] {
        0 => Err(Refusal::NoOwner),
        host => Ok(Owner { slot, host }),
    }
}

// A view of a table with a stated length. Whether they fit is for a find to say.
pub fn view_of(owners: &[u16], stated: usize) -> View<'_>
    ensures { result ≡ view_of owners.entry stated }
{
    View {
        owners,
        length: stated,
    }
}

// The host for a key in a view's table.
pub fn find_in(view: View<'_>, key: &[u8]) -> Result<Owner, Refusal>
    ensures { told result ≡ found_in view.entry key.now }
{
    find(view.owners, view.length, key)
}

// A lookup: a find through a view. Its parameters are plain, so that its callers need no view of their own.
pub fn look_up(table: &[u16], stated: usize, key: &[u8]) -> Result<Owner, Refusal>
    ensures { told result ≡ found table.now stated key.now }
{
    find_in(view_of(table, stated), key)
}

// The laws of a find: without their proofs this function is not proved.
pub fn promises()
    ensures hashed { HashIsWord × HashGrows }
    ensures owned { RowsRise × FoundIsOwner × RefusedIsNothing }
    ensures fixed { FindFixed × ViewFixed × FindInFixed }
{}
