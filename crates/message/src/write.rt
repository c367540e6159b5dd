// The message of a numbered list, written.
ghost use Rattle.std.specs.Prelude.{◌∷◌, ◌++◌, ◌≡◌, ◌≤◌, ◌*◌, length, drop};
ghost use Rattle.rules.specs.Limits.{most_listed};
ghost use Rattle.rules.specs.Messages.{bytes_of, address_fields};
ghost use Rattle.message.specs.Writes.{message_front, wrote, write_words};

use rules::answer::Refusal;

// A message has so many addresses at most.
const MOST_LISTED: usize = 65535;

// Tag and length of a field.
fn put_tag(part: &mut [u8], tag: u8, size: u8)
    requires { 3 ≤ length part.old }
    ensures { part.new ≡ tag ∷ 0 ∷ size ∷ drop 3 part.old }
{
    part[..3].copy_from_slice(&[tag, 0, size]);
}

// A number in eight bytes, high byte first.
#[tactic(auto, using(crate::proofs::Putting::eight_bytes))]
fn eight_bytes(v: u64) -> [u8; 8]
    ensures { result ≡ bytes_of 8 v }
{
    v.to_be_bytes()
}

// A field with a number of eight bytes: the list's number, or an address.
fn put_number(part: &mut [u8], tag: u8, v: u64)
    requires { 11 ≤ length part.old }
    ensures { part.new ≡ tag ∷ 0 ∷ 8 ∷ (bytes_of 8 v ++ drop 11 part.old) }
{
    put_tag(part, tag, 8);
    part[3..11].copy_from_slice(&eight_bytes(v));
}

// The count, in two bytes.
fn put_count(part: &mut [u8], count: u64)
    requires { 5 ≤ length part.old }
    ensures { part.new ≡ 2 ∷ 0 ∷ 2 ∷ (bytes_of 2 count ++ drop 5 part.old) }
{
    put_tag(part, 2, 2);
    part[3..5].copy_from_slice(&eight_bytes(count)[6..]);
}

// The fields before the addresses.
fn put_front(part: &mut [u8], number: u64, count: u64)
    requires { 16 ≤ length part.old }
    ensures { part.new ≡ message_front number count ++ drop 16 part.old }
{
    put_number(part, 1, number);
    put_count(&mut part[11..], count);
}

// An address field for each address.
fn put_addresses(part: &mut [u8], list: &[u64])
    requires { length list.now * 11 ≤ length part.old }
    ensures { part.new ≡ address_fields list.now ++ drop (length list.now * 11) part.old }
{
    for (i, address) in list.iter().enumerate() {
        put_number(&mut part[i * 11..], 3, *address);
    }
}

// Writes the message of the list with the number: 19 bytes and 11 for each address. Answers how many bytes are written.
pub fn write_message(bytes: &mut [u8], number: u64, list: &[u64]) -> Result<u64, Refusal>
    ensures { wrote result bytes.new ≡ write_words bytes.old number list.now }
{
    let count = list.len();
    let fields = count * 11;
    if bytes.len() < 19 + fields {
        return Err(Refusal::OrderWords);
    }
    if MOST_LISTED < count {
        return Err(Refusal::Malformed);
    }
    put_front(bytes, number, count as u64);
    put_addresses(&mut bytes[16..], list);
    put_tag(&mut bytes[16 + fields..], 9, 0);
    Ok((19 + fields) as u64)
}
