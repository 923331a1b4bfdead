// Numbers of an answer, a line each request.
pub fn say_next<R: Print>(rt: &R, n: u64) {
    let _ = print!(rt; " {n}");
}

pub fn say_bool<R: Print>(rt: &R, yes: bool) {
    say_next(rt, u64::from(yes));
}

// How every answer begins. Answer, place and values are numbers and references, here and where one is asked, as the exported functions have them.
pub fn say_answer<R: Print>(rt: &R, answer: u16, place: u16) {
    let _ = print!(rt; "{answer}");
    say_next(rt, place as u64);
}

// A word of 64 bits in halves, the low one first.
pub fn say_halves<R: Print>(rt: &R, word: u64) {
    say_next(rt, word % 4294967296);
    say_next(rt, word / 4294967296);
}

pub fn say_words<R: Print>(rt: &R, words: &[u16]) {
    for word in words {
        say_next(rt, *word as u64);
    }
}
