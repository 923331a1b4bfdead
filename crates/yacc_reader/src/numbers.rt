// Ids numbered by first occurrence: a word for each id, 0 or one more than its number (specs/numbers/Numbers).

ghost use Rattle.std.specs.Prelude.{◌≡◌, ◌<◌, length};
ghost use Rattle.yacc_reader.specs.numbers.Numbers.{numbered, numbered_to};

// Id j gets number n unless it has one; how many have one then. (0 and no Option: the words are lent as zeros, and `number_at` of module symbol_table makes the Option where one is read.)
pub fn number(numbers: &mut [u16], j: usize, n: usize) -> usize
    requires { (j < length numbers.old) × (n < 65535) }
    ensures value { result ≡ numbered_to numbers.old j n }
    ensures numbers_after { numbers.new ≡ numbered numbers.old j n }
{
    if numbers[j] != 0 {
        return n;
    }
    numbers[j] = (n + 1) as u16;
    n + 1
}
