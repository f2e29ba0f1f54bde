ghost use Rattle.std.specs.Prelude.{◌≡◌, ℕ, min, T};
ghost use Rattle.level.specs.Bytes.{sixteen, from_sixteen};
ghost use Rattle.level.specs.Element.{Element, plus, zeros};
ghost use Rattle.level.specs.Laws.{Arithmetic, Laws};

// A level of log width k: its elements have 2^k coordinates.
//
// The ghost members say what an implementation means, and `ring` is the law that each proves. All of them speak of what
// elements mean, so a level may hold one element in several stored forms.
//
// Functions that need a width ask `log ≤ 7` or `3 ≤ log` in their contracts. A bound here would be asked of every level that others
// bring, and a narrower trait of every level that reaches a report, where a wider one is refused by a test as the program runs.
//
// Functions by name and no operators or `From`: equal elements may be stored in different forms, and a derived `==` would compare what is
// stored. Sixteen bytes by value: an array is the same at every level, whatever the level stores, and asks for no memory.
pub trait Level: Copy {
    // k
    ghost log: { ℕ };

    // the coordinates of a stored element
    ghost means: { Self → Element log };

    // the product, one and the generator
    ghost arithmetic: { Arithmetic log };

    // The log width, where 8 stands for each level of more than 128 coordinates: packing refuses above 7, with `LevelTooWide`, so nothing
    // needs to tell wider levels apart.
    fn log_width() -> u8
        ensures { result ≡ min log 8 };

    fn zero() -> Self
        ensures { means result ≡ zeros log };

    fn one() -> Self
        ensures { means result ≡ arithmetic.unit };

    fn generator() -> Self
        ensures { means result ≡ arithmetic.root };

    fn add(self, other: Self) -> Self
        ensures { means result ≡ plus (means self) (means other) };

    fn mul(self, other: Self) -> Self
        ensures { means result ≡ arithmetic.times (means self) (means other) };

    // The product with the generator. A level that has a shorter way writes its own body.
    fn mul_generator(self) -> Self
        ensures { means result ≡ arithmetic.times arithmetic.root (means self) }
    {
        Self::generator().mul(self)
    }

    // Whether all coordinates agree.
    fn equals(self, other: Self) -> bool
        ensures agree { T result → means self ≡ means other }
        ensures found { means self ≡ means other → T result };

    // Coordinate 8j + b is binary digit b of byte j. Digits that stand for no coordinate of the level are 0.
    fn to_bytes(self) -> [u8; 16]
        ensures { result ≡ sixteen (means self) };

    // The element whose coordinates are read off so: digits that stand for no coordinate are ignored, and coordinates that sixteen bytes do
    // not reach are 0.
    fn from_bytes(bytes: [u8; 16]) -> Self
        ensures { means result ≡ from_sixteen log bytes };

    // the law
    ghost ring: { Laws arithmetic };
}
