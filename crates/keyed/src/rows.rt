ghost use Rattle.std.specs.Prelude.{◌≡◌};
ghost use Rattle.keyed.specs.Order.{OnlyItself};

// A row that has a key. Keys have a total order, and only a key itself is equal to a key.
pub trait Keyed {
    type Key: Ord;

    ghost key_of: { Self → Self.Key };

    fn key(&self) -> &Self::Key
        ensures { result.now ≡ key_of self.now };

    ghost only_itself: { OnlyItself Self.Key.cmp };
}
