// A place that takes elements one after another, and the list that grows.
ghost use Rattle.std.specs.Prelude.{◌≡◌, List, [], ◌∷◌, ◌++◌};
ghost use Rattle.sinks.specs.Sinks.{Given, Laws};
ghost use Rattle.sinks.specs.Vecs.{Appended, Spoiled, vec_laws};

use std::alloc::AllocError;

// A place that takes elements one after another, until it can take no more.
pub trait Sink<T> {
    // why it takes no more
    type Full: Drop;

    // what it is once it took these
    ghost takes: { Self → List T → Self → Type 0 };

    // what it is once it took of these what it could
    ghost stops: { Self → List T → Self → Type 0 };

    fn put(&mut self, item: T) -> Result<(), Self::Full>
        ensures { Given takes stops self.old (item ∷ []) result self.new };

    ghost laws: { Laws takes stops };
}

impl<T: Drop> Sink<T> for Vec<T> {
    type Full = AllocError;

    ghost takes = { Appended };

    ghost stops = { Spoiled };

    fn put(&mut self, item: T) -> Result<(), AllocError> {
        Ok(self.push(item)?)
    }

    ghost laws = { vec_laws };
}
