// What an index asks of keys and entries: an equality and a hash with their law, and a key in each entry.
ghost use Rattle.std.specs.Prelude.{◌≡◌, ℕ};
ghost use Rattle.ordered_index.specs.Law.{Lawful};

// A key: its equality is an equivalence, and equal keys hash equal.
pub trait Key: Copy + Eq {
    ghost digest: { Self → ℕ };

    fn hash(&self) -> u32
        ensures { result ≡ digest self.now };

    ghost lawful: { Lawful Self.eq digest };
}

// What stands in an index: a value that has a key.
pub trait Entry: Copy {
    type Of: Key;

    ghost keyed: { Self → Self.Of };

    fn key(&self) -> Self::Of
        ensures { result ≡ keyed self.now };
}
