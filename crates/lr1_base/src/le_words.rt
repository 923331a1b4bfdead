// Little-endian 16-bit words from bytes, and bytes from words.

ghost use Rattle.std.specs.Prelude.{◌≡◌, ◌++◌, ◌*◌, ◌/◌, ◌≤◌, length, drop};
ghost use Rattle.lr1_base.specs.le_words.Little.{words_of, encoded};

// The words of some bytes; a byte left over is dropped. By place, here and below: of what is written through a `zip` (tried) a proof knows nothing.
pub fn decode(bytes: &[u8], out: &mut [u16]) -> usize
    requires { length bytes.now / 2 ≤ length out.old }
    ensures { (result ≡ length bytes.now / 2) × (out.new ≡ words_of bytes.now ++ drop (length bytes.now / 2) out.old) }
{
    for (i, pair) in bytes.chunks_exact(2).enumerate() {
        out[i] = u16::from_le_bytes([pair[0], pair[1]]);
    }
    bytes.len() / 2
}

// The bytes of some words, at the front.
pub fn encode(words: &[u16], out: &mut [u8])
    requires { length words.now * 2 ≤ length out.old }
    ensures { out.new ≡ encoded words.now ++ drop (length words.now * 2) out.old }
{
    for (i, word) in words.iter().enumerate() {
        let [low, high] = word.to_le_bytes();
        out[i * 2] = low;
        out[i * 2 + 1] = high;
    }
}
