//! Where the posts of each copy go.

use crate::channels::sent;
use crate::fault::ClusterFault;
use crate::post::{Post, Route};
use crate::shared::Shared;
use cell::IndexName;
use crossbeam_channel::{Receiver, Sender, unbounded};
use std::alloc::Global;
use std::sync::Wait;
use translog::LogDevice;

/// The inbox of a copy's worker, which posts reach from now on, and a way to it.
pub(crate) fn inbox_of<R: Wait, D: LogDevice, J: IndexName>(
    rt: &R,
    alloc: Global,
    shared: &Shared<D, J>,
    copy: u32,
) -> Result<(Sender<Post<J>, Global>, Receiver<Post<J>, Global>), ClusterFault> {
    let (to, inbox) = unbounded(alloc)?;
    let another: Sender<Post<J>, Global> = to.clone()?;
    add_route(rt, shared, Route { copy, to })?;
    Ok((another, inbox))
}

fn add_route<R: Wait, D: LogDevice, J: IndexName>(
    rt: &R,
    shared: &Shared<D, J>,
    route: Route<J>,
) -> Result<(), ClusterFault> {
    let mut routes = shared.routes.lock(rt);
    routes.push(route)?;
    Ok(())
}

pub(crate) fn remove_route<R: Wait, D: LogDevice, J: IndexName>(
    rt: &R,
    shared: &Shared<D, J>,
    copy: u32,
) {
    let mut routes = shared.routes.lock(rt);
    routes.retain(|route| route.copy != copy);
}

/// Has all workers end, after what waits for them.
pub(crate) fn stop<R: Wait, D: LogDevice, J: IndexName>(rt: &R, shared: &Shared<D, J>) {
    let mut routes = shared.routes.lock(rt);
    for route in routes.as_slice() {
        sent(rt, &route.to, Post::Stop);
    }
    routes.clear();
}
