// Why a request is refused. What it answers is in specs/Types.antt, the numbers of refusals in specs/Answers.antt.

// By rising number from 1.
#[derive(Clone, Copy)]
pub enum Refusal {
    // 1: the row count, the table's length or its words.
    Table,
    // 2: too few order words are lent.
    OrderWords,
    // 3: the address is all ones.
    Address,
    // 4: a named size is out of limits.
    Size,
    // 5: the request is not meant for this mode.
    Mode,
    // 6: the entry is not in the cache.
    Absent,
    // 7: the cache has an entry at the address.
    Present,
    // 8: the entry's hold forbids it.
    Held,
    // 9: the entry lacks the hold needed.
    Unheld,
    // 10: the pin mark forbids it.
    Pinned,
    // 11: no row is free and no entry may be evicted.
    Full,
    // 12: a setting is bad, the lowest bad field's number. A number and no enum: `refusal_field` answers it to C.
    Setting(u64),
    // 13: the taken list names an address twice, or one not dirty here.
    List,
    // 14: the message's bytes end early.
    Cut,
    // 15: the message has a byte that no right message can have there.
    Malformed,
    // 16: the message has not the next number, or no number is left to send.
    Number,
}
