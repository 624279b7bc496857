// Codes by a table of places: a key is looked for from the place on that its word gives, past other keys. The first of the keys that are
// the same takes the free place where the search for it ended, and the others find it there.
ghost use Rattle.std.specs.Prelude.{◌<◌, ◌≤◌, ◌≡◌, true, List, get_or, IfSome};
ghost use Rattle.model.specs.Options.{Key};
ghost use Rattle.model.specs.Readings.{has_key};
ghost use Rattle.keys.specs.Held.{HeldIn};
ghost use Rattle.keys.specs.Codes.{Coded};
ghost use Rattle.keys.specs.Places.{mix_of, place_of, Found};

use crate::KeyColumns;

// Each half of the word times an odd number.
#[tactic(auto, unfolding(crate::specs::Places::mix_of))]
fn mix(word: u64) -> u64
    ensures { result ≡ mix_of word }
{
    word / 0x1_0000_0000 * 0x5e37_79b1 + word % 0x1_0000_0000 * 0x45eb_ca6b
}

// The halves of the mixed word are added and multiplied again: words that differ in a few letters or digits are to give places far apart.
fn place(word: u64) -> usize
    ensures value { result ≡ place_of word }
    ensures upper_bound { result < 4096 }
{
    let mixed = mix(word);
    let folded = mixed / 0x1_0000_0000 + mixed % 0x1_0000_0000;
    (folded * 0x68bc_21eb / 0x1_0000_0000 % 4096) as usize
}

// The place from start on where the key at i is or may be put, if there is one before end. A search that meets another key with the same
// word ends there: texts of one word are not to be read over and over.
fn find(
    keys: KeyColumns<'_>,
    places: &[u16; 4128],
    start: usize,
    end: usize,
    i: usize,
) -> Option<usize>
    requires { end ≤ 4128 }
    ensures range { IfSome result (λ p. (start ≤ p) × (p < end)) }
    ensures found { (ks : List Key) → HeldIn keys.entry ks → has_key (get_or ks i None) ≡ true
        → IfSome result (λ p. Found keys.entry.pool.now ks places.now start i p) }
{
    let word = keys.word(i);
    for p in start..end {
        let code = places[p] as usize;
        if code == 0 {
            return Some(p);
        }
        if keys.same_held(i, code - 1) {
            return Some(p);
        }
        if keys.word(code - 1) == word {
            return None;
        }
    }
    None
}

// Codes of the keys of the first n cells, up to one that finds no place. Past other keys there are at most 31 steps for a key and twice as
// many for all as there are cells, whatever places the words give.
pub(crate) fn tabled_codes(keys: KeyColumns<'_>, n: usize) -> [u16; 1024]
    requires { n ≤ 1024 }
    ensures { (ks : List Key) → HeldIn keys.entry ks → Coded keys.entry.pool.now ks result }
{
    let mut codes = [0; 1024];
    let mut places = [0; 4128];
    let mut left = 2 * n;
    for i in 0..n {
        if keys.tags[i] == 0 {
            continue;
        }
        let start = place(keys.words[i]);
        let end = start + left.min(32);
        let Some(p) = find(keys, &places, start, end, i) else {
            return codes;
        };
        left -= p - start;
        if places[p] == 0 {
            places[p] = i as u16 + 1;
        }
        codes[i] = places[p];
    }
    codes
}
