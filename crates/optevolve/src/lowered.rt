// A request that is lowered by the newer sheet, and its option bytes as the older sheet reads them.
use console::output::option_bytes;
use field::part::span_in;
use inputs::words::least;
use request::heading::heading_of;

// The room that is lent for the option bytes of a case.
const ROOM: usize = 65_536;

// The room that is lent for the words of a case: those of 65,536 records, and so many option bytes have fewer.
const WORDS: usize = 524_288;

// As `tell_listing`, with room for the words.
fn list_over(older: &[u8], options_type: &[u8], bytes: &[u8], words: &mut [u32]) -> bool {
    let answer = listing::list(older, options_type, bytes, words);
    console::output::answer(answer);
    if answer.reply != 0 {
        return false;
    }
    display::records(words, answer.length as usize);
    display::rows(older, options_type, bytes);
    true
}

// What `optlist` prints of option bytes under the older sheet, and whether it does not refuse them.
fn tell_listing(older: &[u8], options_type: &[u8], bytes: &[u8]) -> bool {
    let mut words = [0u32; WORDS];
    list_over(older, options_type, bytes, &mut words)
}

// The option bytes of a request under both sheets.
fn tell_bytes(older: &[u8], newer: &[u8], options_type: &[u8], bytes: &[u8]) {
    if tell_listing(older, options_type, bytes) {
        display::side_by_side(newer, older, options_type, bytes);
    }
}

// The same, of the request's own options type.
fn tell_read(older: &[u8], newer: &[u8], request: &[u8], bytes: &[u8]) {
    let Some(heading) = heading_of(request) else {
        return;
    };
    let Some(place) = span_in(request, heading.options_type) else {
        return;
    };
    tell_bytes(older, newer, &request[place.from..place.to], bytes);
}

// As `tell_request`, with room for the option bytes.
#[tactic(auto, using(crate::proofs::CaseLaws::case_laws))]
fn lower_over(older: &[u8], newer: &[u8], request: &[u8], out: &mut [u8]) {
    let answer = resolver::resolve(newer, request, out);
    option_bytes(answer, out);
    if (answer.reply != 0) | (answer.absent != 0) {
        return;
    }
    let n = least(answer.length as usize, out.len());
    tell_read(older, newer, request, &out[..n]);
}

// The lines of a request.
pub fn tell_request(older: &[u8], newer: &[u8], request: &[u8]) {
    let mut out = [0u8; ROOM];
    lower_over(older, newer, request, &mut out);
}
