// What a buffer is made of, words or bytes, and a buffer as one number.
ghost use Rattle.std.specs.Prelude.{◌≡◌, ℕ, ◌+◌, ◌*◌, ◌%◌, drop};
ghost use Rattle.std.specs.List.{fold};

// A word or a byte.
pub trait Element: Copy {
    ghost radix: { ℕ };

    ghost value: { Self → ℕ };

    // A word, or its low byte.
    fn low(word: u32) -> Self
        ensures { value result ≡ word % radix };

    // The remainder of a large number by the prime 2^31 - 19, where the element is one more digit.
    fn added(self, digest: u64) -> u64
        ensures { result ≡ (digest % 2147483629 * radix + value self) % 2147483629 };
}

impl Element for u32 {
    ghost radix = { 4294967296 };

    ghost value = { λ x. x };

    fn low(word: u32) -> u32 {
        word
    }

    fn added(self, digest: u64) -> u64 {
        (digest % 2147483629 * 4294967296 + u64::from(self)) % 2147483629
    }
}

impl Element for u8 {
    ghost radix = { 256 };

    ghost value = { λ x. x };

    fn low(word: u32) -> u8 {
        (word % 256) as u8
    }

    fn added(self, digest: u64) -> u64 {
        (digest % 2147483629 * 256 + u64::from(self)) % 2147483629
    }
}

// The elements from a place on as the digits of a large number, the first the highest; and of that the remainder by the prime 2^31 - 19.
pub fn digest<T: Element>(s: &[T], from: usize) -> u64
    ensures { result ≡ fold (λ d x. (d % 2147483629 * T.radix + T.value x) % 2147483629) 0 (drop from s.now) }
{
    s.iter().skip(from).fold(0, |digest, x| x.added(digest))
}
