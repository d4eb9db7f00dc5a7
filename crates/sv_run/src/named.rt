//! The recorder under its lock.
ghost use Rattle.std.specs.Prelude.{ℕ, ◌<◌, List, [], length};
ghost use Rattle.sv_load.specs.Load.{Load};
ghost use Rattle.sv_run.specs.Named.{IsRecorderOf, no_load};

use std::marker::{Brand, Model, PhantomData};
use sv_desc::Describes;
use sv_recorder::Recorder;
use sv_ring::{DownReader, UpWriter};

/// Which workload and which rings a run has. Each run picks them.
pub(crate) trait Naming {
    ghost load: { Load };

    ghost up: { List (List ℕ) };

    ghost down: { List (List ℕ) };
}

impl Naming for Brand {
    ghost load = { no_load };

    ghost up = { [] };

    ghost down = { [] };
}

/// A recorder of the run's workload and rings. Of what comes out of a lock no more is known than its
/// type says: so it says this.
#[derive(Drop)]
pub(crate) struct Named<
    'w,
    J: Naming,
    U: UpWriter + Drop,
    D: DownReader + Drop,
    P: Describes + Drop,
> {
    recorder: Recorder<'w, U, D, P>,
    of: PhantomData<J>,
}

impl<'w, J: Naming, U: UpWriter + Drop, D: DownReader + Drop, P: Describes + Drop> Model
    for Named<'w, J, U, D, P> {
    ghost use Rattle.sv_recorder.specs.Recording.{Recording};
    ghost use Rattle.sv_run.specs.Named.{IsRecorderOf};

    ghost Value = { Recording };

    ghost view = { λ n. n.recorder };

    ghost invariant = { λ n. IsRecorderOf J.load J.up J.down n.recorder };
}

impl<'w, J: Naming, U: UpWriter + Drop, D: DownReader + Drop, P: Describes + Drop> Named<
    'w,
    J,
    U,
    D,
    P,
> {
    pub(crate) fn new(recorder: Recorder<'w, U, D, P>) -> Named<'w, J, U, D, P>
        requires { IsRecorderOf J.load J.up J.down recorder }
    {
        Named {
            recorder,
            of: PhantomData,
        }
    }

    /// The next step of a writer, if one is left.
    pub(crate) fn step(&mut self, writer: u32)
        requires { writer < length J.load.scripts }
    {
        let _ = self.recorder.section(writer);
    }

    pub(crate) fn into_recorder(self) -> Recorder<'w, U, D, P>
        ensures { IsRecorderOf J.load J.up J.down result }
    {
        self.recorder
    }
}
