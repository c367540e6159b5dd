// One byte of a message.
ghost use Rattle.std.specs.Prelude.{◌≡◌, ◌<◌, ◌^◌, eqb, if◌then◌else◌};
ghost use Rattle.rules.specs.Messages as messages;
ghost use Rattle.message.specs.Feeding.{Sound, expects, Feeds};

// What has been read of a message.
#[derive(Clone, Copy)]
pub struct Reader {
    // What comes next: 0 to 2 tag and length of the number, 3 to 10 the number, 11 to 13 tag and length of the count, 14 and 15 the
    // count, 16 a tag, 17 and 18 the length of an address, 19 to 26 the address, 27 and 28 the end's length, 29 nothing.
    // A number and no enum: the rules' reader (specs/Messages.antt) counts the places so, and `Sound` bounds it.
    pub place: u64,
    pub number: u64,
    pub count: u64,
    // The address under way, as far as it has come.
    pub part: u64,
    // How many addresses have come, and whether all ones is one of them.
    pub taken: u64,
    pub ones: bool,
}

// What one byte leads to, where a right message can have it.
#[derive(Clone, Copy)]
pub struct Fed {
    pub reader: Reader,
    // The address of which the byte was the last one.
    pub address: Option<u64>,
}

// The tags 1, 2, 3 and 9 are the format's numbers (docs/MESSAGE.md), and bytes to the functions below.

// No entry has this address.
pub const ALL_ONES: u64 = u64::MAX;

// A byte that has to be this one, and the place after it.
fn expect(expected: u64, next: u64, b: u64, r: Reader) -> Option<Fed>
    ensures { Feeds (expects expected next b) r result }
{
    if b != expected {
        return None;
    }
    let reader = Reader { place: next, ..r };
    Some(Fed {
        reader,
        address: None,
    })
}

// A byte of a length, which is below 256: 0 at the place of the high byte, else the length.
fn length_byte(place: u64, high: u64, length: u64) -> u64
    ensures { result ≡ (if eqb place high then 0 else length) }
{
    if place == high { 0 } else { length }
}

// The number's tag and length.
fn number_head(place: u64) -> u64
    ensures { result ≡ (if eqb place 0 then 1 else (if eqb place 1 then 0 else 8)) }
{
    if place == 0 {
        1
    } else {
        length_byte(place, 1, 8)
    }
}

// A tag: 3 while addresses are wanting, then 9.
fn tag(b: u64, r: Reader) -> Option<Fed>
    ensures { Feeds (messages.tag b) r result }
{
    if r.taken < r.count {
        expect(3, 17, b, r)
    } else {
        expect(9, 27, b, r)
    }
}

// A byte of the number, of the count, of an address: each grows its own field. One function for all three would need the field as
// a closure, and three of these at its calls.
fn number_byte(b: u64, r: Reader) -> Option<Fed>
    requires { (b < 256) × (r.place < 29) × (r.number < 2 ^ 56) }
    ensures { Feeds (messages.number_byte b) r result }
{
    let reader = Reader {
        place: r.place + 1,
        number: r.number * 256 + b,
        ..r
    };
    Some(Fed {
        reader,
        address: None,
    })
}

fn count_byte(b: u64, r: Reader) -> Option<Fed>
    requires { (b < 256) × (r.place < 29) × (r.count < 256) }
    ensures { Feeds (messages.count_byte b) r result }
{
    let reader = Reader {
        place: r.place + 1,
        count: r.count * 256 + b,
        ..r
    };
    Some(Fed {
        reader,
        address: None,
    })
}

fn address_byte(b: u64, r: Reader) -> Option<Fed>
    requires { (b < 256) × (r.place < 29) × (r.part < 2 ^ 56) }
    ensures { Feeds (messages.address_byte b) r result }
{
    let reader = Reader {
        place: r.place + 1,
        part: r.part * 256 + b,
        ..r
    };
    Some(Fed {
        reader,
        address: None,
    })
}

// The last byte of an address: a tag comes next.
fn last_byte(b: u64, r: Reader) -> Option<Fed>
    requires { (b < 256) × (r.part < 2 ^ 56) × (r.taken < 65536) }
    ensures { Feeds (messages.last_byte b) r result }
{
    let address = r.part * 256 + b;
    let reader = Reader {
        place: 16,
        part: 0,
        taken: r.taken + 1,
        ones: r.ones | (address == ALL_ONES),
        ..r
    };
    Some(Fed {
        reader,
        address: Some(address),
    })
}

// One byte more.
pub fn feed(byte: u8, r: Reader) -> Option<Fed>
    requires { Sound r }
    ensures { Feeds (messages.feed byte) r result }
{
    let b = u64::from(byte);
    let place = r.place;
    match place {
        0..3 => expect(number_head(place), place + 1, b, r),
        3..11 => number_byte(b, r),
        11..14 => expect(length_byte(place, 12, 2), place + 1, b, r),
        14..16 => count_byte(b, r),
        16 => tag(b, r),
        17..19 => expect(length_byte(place, 17, 8), place + 1, b, r),
        19..26 => address_byte(b, r),
        26 => last_byte(b, r),
        27..29 => expect(0, place + 1, b, r),
        29.. => None,
    }
}
