// A message, read whole.
ghost use Rattle.std.specs.Prelude.{◌≡◌, ◌≤◌, ◌+◌, length, set};
ghost use Rattle.rules.specs.Limits.{most_rows};
ghost use Rattle.rules.specs.Messages.{read_message};
ghost use Rattle.message.specs.Feeding.{Sound};
ghost use Rattle.message.specs.Reads.{after, Reads, Readable, FeedsOn, FeedsAll, address_head, number_at, FieldsEnd, read_as, ended_as, KeptOf};

use crate::feed::{ALL_ONES, Reader, feed};

// As many addresses are kept as a cache can have entries.
pub const MOST_ROWS: usize = 4096;

// A numbered list: how many addresses it has, and whether all ones is one of them.
#[derive(Clone, Copy)]
pub struct NumberedList {
    pub number: u64,
    pub count: u64,
    pub ones: bool,
}

// Why bytes are no message.
#[derive(Clone, Copy)]
pub enum BadMessage {
    // They end early.
    Cut,
    // There is a byte that no right message can have there.
    Malformed,
}

// The reader before the first byte.
const FRESH: Reader = Reader {
    place: 0,
    number: 0,
    count: 0,
    part: 0,
    taken: 0,
    ones: false,
};

// Keeps an address, if there is a word for it. The words are lent and their count is told beside them: there is no heap for a list.
fn keep(addresses: &mut [u64; MOST_ROWS], place: u64, address: u64)
    requires { length addresses.old ≡ most_rows }
    ensures { addresses.new ≡ set addresses.old place address }
{
    if place < MOST_ROWS as u64 {
        addresses[place as usize] = address;
    }
}

// One byte more.
fn feed_one(byte: u8, r: Reader, addresses: &mut [u64; MOST_ROWS]) -> Option<Reader>
    requires { Sound r × (length addresses.old ≡ most_rows) }
    ensures { FeedsOn byte r addresses.old result addresses.new }
{
    let fed = feed(byte, r)?;
    if let Some(address) = fed.address {
        keep(addresses, r.taken, address);
    }
    Some(fed.reader)
}

// Bytes, one after the other.
fn feed_bytes(bytes: &[u8], r: Reader, addresses: &mut [u64; MOST_ROWS]) -> Option<Reader>
    requires { Readable r addresses.old }
    ensures { FeedsAll bytes.now r addresses.old result addresses.new }
{
    let mut reader = r;
    for byte in bytes {
        reader = feed_one(*byte, reader, addresses)?;
    }
    Some(reader)
}

// Whether tag and length of an address stand at a place.
fn address_head(bytes: &[u8], at: usize) -> bool
    requires { at + 3 ≤ length bytes.now }
    ensures { result ≡ address_head bytes.now at }
{
    bytes[at..].starts_with(&[3, 0, 8])
}

// The number in eight bytes, high byte first.
fn number_at(bytes: &[u8], at: usize) -> u64
    requires { at + 8 ≤ length bytes.now }
    ensures { result ≡ number_at bytes.now at }
{
    let mut word = [0u8; 8];
    word.copy_from_slice(&bytes[at..at + 8]);
    u64::from_be_bytes(word)
}

// How many addresses may have come behind the whole address fields in so many bytes, with a word for each: none more but where a tag
// comes next.
fn fields_end(r: Reader, left: usize) -> u64
    requires { Sound r }
    ensures { FieldsEnd r left result }
{
    if r.place != 16 {
        return r.taken;
    }
    let most = r.count.min(MOST_ROWS as u64);
    let fit = (left / 11) as u64;
    r.taken + fit.min(most.saturating_sub(r.taken))
}

// A reader behind whole fields.
#[derive(Clone, Copy)]
struct Behind {
    reader: Reader,
    at: usize,
}

// Address fields, a whole one at a time, as far as they go and there are words for them.
fn read_fields(bytes: &[u8], from: usize, r: Reader, addresses: &mut [u64; MOST_ROWS]) -> Behind
    requires { (from ≤ length bytes.now) × Reads (after from bytes.now) r addresses.old }
    ensures { (result.at ≤ length bytes.now) × Reads (after result.at bytes.now) result.reader addresses.new }
{
    let end = fields_end(r, bytes.len() - from);
    let mut at = from;
    let mut reader = r;
    for taken in r.taken..end {
        if !address_head(bytes, at) {
            return Behind { reader, at };
        }
        let address = number_at(bytes, at + 3);
        addresses[taken as usize] = address;
        reader = Reader {
            taken: taken + 1,
            ones: reader.ones | (address == ALL_ONES),
            ..reader
        };
        at += 11;
    }
    Behind { reader, at }
}

// What the reader has read, when no byte is left.
fn ended(r: Reader) -> Result<NumberedList, BadMessage>
    ensures { result ≡ ended_as r }
{
    if r.place == 29 {
        Ok(NumberedList {
            number: r.number,
            count: r.taken,
            ones: r.ones,
        })
    } else {
        Err(BadMessage::Cut)
    }
}

// Reads a message; the addresses of its list are kept, as many as there are words.
pub fn read_message(
    message: &[u8],
    addresses: &mut [u64; MOST_ROWS],
) -> Result<NumberedList, BadMessage>
    requires { length addresses.old ≡ most_rows }
    ensures { (result ≡ read_as (read_message message.now)) × KeptOf (read_message message.now) addresses.new }
{
    let head = message.len().min(16);
    let Some(r) = feed_bytes(&message[..head], FRESH, addresses) else {
        return Err(BadMessage::Malformed);
    };
    let fields = read_fields(message, head, r, addresses);
    let Some(r) = feed_bytes(&message[fields.at..], fields.reader, addresses) else {
        return Err(BadMessage::Malformed);
    };
    ended(r)
}
