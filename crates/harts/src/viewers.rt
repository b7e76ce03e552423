//! Who looks on at a race, from the thread that started it.

use crate::lock::Shared;
use shared_machine::{Naming, Watch};
use std::sync::Wait;

/// Who looks on at a race.
pub trait Viewer {
    /// Looks as often as it likes, and gives the watch back.
    fn view<J: Naming>(&mut self, watch: Watch<J>) -> Watch<J>;
}

/// Nobody looks on.
#[derive(Drop)]
pub(crate) struct Nobody;

impl Viewer for Nobody {
    fn view<J: Naming>(&mut self, watch: Watch<J>) -> Watch<J> {
        watch
    }
}

/// A viewer, and the watch that it looks through.
#[derive(Drop)]
pub(crate) struct Onlooker<'a, J: Naming, V: Viewer> {
    viewer: &'a mut V,
    watch: Watch<J>,
}

impl<'a, J: Naming, V: Viewer> Onlooker<'a, J, V> {
    /// A viewer, if there is one, with a watch of a machine, if one is given.
    pub(crate) fn of<R: Wait>(
        viewer: Option<&'a mut V>,
        shared: &Shared<J>,
        rt: &R,
    ) -> Option<Onlooker<'a, J, V>> {
        let viewer = viewer?;
        match shared.watch(rt) {
            Ok(watch) => Some(Onlooker { viewer, watch }),
            Err(_) => None,
        }
    }

    /// Has the viewer look on once.
    pub(crate) fn look_on(self) {
        let Onlooker { viewer, watch } = self;
        let _ended = viewer.view(watch);
    }
}
