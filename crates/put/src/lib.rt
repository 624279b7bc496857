// Text written into lent bytes, piece after piece. A piece that does not fit leaves zeros from end to end, and the place behind it is the
// same: a text put into no bytes at all is counted.
#![tactic(auto)]

ghost use Rattle.std.specs.Prelude.{◌<◌, ◌≡◌, [], ◌∷◌, ◌++◌, length, replicate};
ghost use Rattle.memory.specs.Memory.{fits};
ghost use Rattle.grammar.specs.Parts.{bytes};
ghost use Rattle.grammar.specs.Numbers.{decimal_text, hex_digit, hex_digits, pairs_text};
ghost use Rattle.put.specs.Put.{place_after, Laid, Puts, kept_length, kept_bytes};

// Lent bytes, and the place in them at which the next piece is put.
#[derive(Drop)]
pub struct Cursor<'a> {
    pub bytes: &'a mut [u8],
    pub at: usize,
}

impl Cursor<'_> {
    pub fn put_byte(&mut self, b: u8)
        ensures { Puts self.old (b ∷ []) self.new }
    {
        self.at = lay_byte(self.bytes, self.at, b);
    }

    pub fn put_bytes(&mut self, piece: &[u8])
        ensures { Puts self.old piece.now self.new }
    {
        self.at = lay_bytes(self.bytes, self.at, piece);
    }

    // A number in decimal.
    pub fn put_decimal(&mut self, n: u64)
        ensures { Puts self.old (decimal_text n) self.new }
    {
        self.at = lay_decimal(self.bytes, self.at, n);
    }

    // A number in decimal, and the byte that ends its field.
    pub fn put_number(&mut self, n: u64, end: u8)
        ensures { Puts self.old (decimal_text n ++ (end ∷ [])) self.new }
    {
        self.put_decimal(n);
        self.put_byte(end);
    }

    // The last k hexadecimal digits of a number.
    pub fn put_hex(&mut self, k: usize, n: u64)
        ensures { Puts self.old (hex_digits k n) self.new }
    {
        self.at = lay_hex(self.bytes, self.at, k, n);
    }

    // Bytes, each as two hexadecimal digits.
    pub fn put_pairs(&mut self, piece: &[u8])
        ensures { Puts self.old (pairs_text piece.now) self.new }
    {
        self.at = lay_pairs(self.bytes, self.at, piece);
    }

    // `t`, bytes as pairs of digits, and the byte that ends the field.
    pub fn put_text(&mut self, piece: &[u8], end: u8)
        ensures { Puts self.old (bytes "t" ++ (pairs_text piece.now ++ (end ∷ []))) self.new }
    {
        self.put_byte(b't');
        self.put_pairs(piece);
        self.put_byte(end);
    }

    // A text that ends at the cursor stays if it fits, with zeros behind it; else there are zeros from end to end.
    pub fn keep(&mut self) -> usize
        ensures length { result ≡ kept_length (length self.old.bytes.now) self.old.at }
        ensures bytes { self.new.bytes.now ≡ kept_bytes self.old.bytes.now result }
        ensures at { self.new.at ≡ self.old.at }
        ensures lender { self.new.bytes.ghost_name ≡ self.old.bytes.ghost_name }
    {
        let kept = kept_length(self.bytes.len(), self.at);
        clear_from(self.bytes, kept);
        kept
    }
}

// Each `lay_` puts a piece into bytes from a place on, and gives the place behind: bytes and place are its own, and not read from a cursor
// at each byte, by which a long report takes a quarter longer, and pairs of digits eight times as long.

// Whether n bytes from a place on are within a length.
fn has_room(len: usize, at: usize, n: usize) -> bool
    ensures { result ≡ fits len at n }
{
    at <= len && n <= len - at
}

// A piece of n bytes that does not fit.
fn pass_over(text: &mut [u8], at: usize, n: usize) -> usize
    ensures bytes { text.new ≡ replicate (length text.old) 0 }
    ensures next { result ≡ place_after at n }
{
    text.fill(0);
    at.saturating_add(n)
}

fn lay_byte(text: &mut [u8], at: usize, b: u8) -> usize
    ensures { Laid text.old at (b ∷ []) text.new result }
{
    if at < text.len() {
        text[at] = b;
        return at + 1;
    }
    pass_over(text, at, 1)
}

fn lay_bytes(text: &mut [u8], at: usize, piece: &[u8]) -> usize
    ensures { Laid text.old at piece.now text.new result }
{
    if !has_room(text.len(), at, piece.len()) {
        return pass_over(text, at, piece.len());
    }
    for (i, &b) in piece.iter().enumerate() {
        text[at + i] = b;
    }
    at + piece.len()
}

fn lay_decimal(text: &mut [u8], at: usize, n: u64) -> usize
    ensures { Laid text.old at (decimal_text n) text.new result }
{
    if n < 10 {
        lay_byte(text, at, b'0' + n as u8)
    } else {
        let end = lay_decimal(text, at, n / 10);
        lay_byte(text, end, b'0' + (n % 10) as u8)
    }
}

fn lay_hex(text: &mut [u8], at: usize, k: usize, n: u64) -> usize
    ensures { Laid text.old at (hex_digits k n) text.new result }
{
    if !has_room(text.len(), at, k) {
        return pass_over(text, at, k);
    }
    let mut rest = n;
    for i in (0..k).rev() {
        text[at + i] = hex_digit((rest % 16) as u8);
        rest /= 16;
    }
    at + k
}

fn lay_pairs(text: &mut [u8], at: usize, piece: &[u8]) -> usize
    ensures { Laid text.old at (pairs_text piece.now) text.new result }
{
    let n = piece.len() * 2;
    if !has_room(text.len(), at, n) {
        return pass_over(text, at, n);
    }
    let mut end = at;
    for &b in piece {
        text[end] = hex_digit(b / 16);
        text[end + 1] = hex_digit(b % 16);
        end += 2;
    }
    end
}

// The digit of a number below 16.
fn hex_digit(d: u8) -> u8
    requires { d < 16 }
    ensures { result ≡ hex_digit d }
{
    if d < 10 { b'0' + d } else { b'a' - 10 + d }
}

// Zeros from a place on.
pub fn clear_from(text: &mut [u8], from: usize)
    ensures { text.new ≡ kept_bytes text.old from }
{
    if from < text.len() {
        text[from..].fill(0);
    }
}

fn kept_length(len: usize, end: usize) -> usize
    ensures { result ≡ kept_length len end }
{
    if end <= len { end } else { 0 }
}
