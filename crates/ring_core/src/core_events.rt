// What each event makes of the ring.
ghost use Rattle.std.specs.Prelude.{◌≡◌, ◌≤◌, OnOk, slice_index_or, slice_set};
ghost use Rattle.ring_core.specs.Steps.{spent_view};
ghost use Rattle.ring_core.specs.Core.{base_role, enlist_role, gather_roles, glance_role, happens, learn_roles, leave_role, load_role, move_role, peek_role, publish_role, role_at, source_role, split_role};

use crate::core_state::CoreState;
use crate::core_steps::spent_view;
use crate::element::put;
use crate::event::CoreEvent;
use crate::player_steps::{Glance, Move};
use crate::views::{Shape, View};
use crate::{core_steps, pool_steps};
use frame_codec::Frame33;
use gate_base::OutOfMemory;
use std::alloc::Global;
use std::mem::replace;

// Takes the view of a seat away, and leaves a spent one. Where there is no such seat it is a spent one.
fn take(views: &mut Vec<View>, seat: u32) -> View
    ensures view { slice_index_or views.old.items seat spent_view ≡ result }
    ensures rest { views.new.items ≡ slice_set views.old.items seat spent_view }
{
    let seat = seat as usize;
    if seat < views.len() {
        replace(&mut views[seat], spent_view())
    } else {
        spent_view()
    }
}

impl CoreState {
    fn enlist(&mut self, alloc: Global, shape: Shape, seat: u32, who: u32)
        ensures { self.new ≡ enlist_role shape self.old seat who (role_at self.old seat) }
    {
        let view = take(&mut self.views, seat);
        let next = pool_steps::enlist(
            alloc,
            shape,
            seat,
            who,
            view,
            &mut self.berths,
            &mut self.cells,
        );
        put(&mut self.views, seat as usize, next);
    }

    fn load(
        &mut self,
        shape: Shape,
        seat: u32,
        number: u64,
        frame: Frame33,
    ) -> Result<(), OutOfMemory>
        requires { shape.g ≤ 10 }
        ensures { OnOk result (self.new ≡ load_role shape self.old seat number frame (role_at self.old seat)) }
    {
        let view = take(&mut self.views, seat);
        let next = core_steps::load(shape, number, frame, view, &self.slots)?;
        put(&mut self.views, seat as usize, next);
        Ok(())
    }

    fn publish(&mut self, shape: Shape, seat: u32) -> Result<(), OutOfMemory>
        requires { shape.g ≤ 10 }
        ensures { OnOk result (self.new ≡ publish_role shape self.old seat (role_at self.old seat)) }
    {
        let view = take(&mut self.views, seat);
        let next = core_steps::publish(shape, seat, view, &mut self.slots, &mut self.cells)?;
        put(&mut self.views, seat as usize, next);
        Ok(())
    }

    fn go_on(&mut self, shape: Shape, seat: u32, how: Move) -> Result<(), OutOfMemory>
        requires { shape.g ≤ 10 }
        ensures { OnOk result (self.new ≡ move_role shape self.old seat how (role_at self.old seat)) }
    {
        let view = take(&mut self.views, seat);
        let next = core_steps::go_on(shape, seat, how, view, &mut self.slots, &mut self.cells)?;
        put(&mut self.views, seat as usize, next);
        Ok(())
    }

    fn look(&mut self, shape: Shape, seat: u32, glance: Glance) -> Result<(), OutOfMemory>
        requires { shape.g ≤ 10 }
        ensures { OnOk result (self.new ≡ glance_role shape self.old seat glance (role_at self.old seat)) }
    {
        let view = take(&mut self.views, seat);
        let next = core_steps::look(shape, glance, view, &self.slots)?;
        put(&mut self.views, seat as usize, next);
        Ok(())
    }

    fn leave(&mut self, shape: Shape, seat: u32)
        ensures { self.new ≡ leave_role shape self.old seat (role_at self.old seat) }
    {
        let view = take(&mut self.views, seat);
        let next = core_steps::leave(shape, view, &mut self.berths, &mut self.cells);
        put(&mut self.views, seat as usize, next);
    }

    fn split(
        &mut self,
        alloc: Global,
        shape: Shape,
        seat: u32,
        right: u32,
    ) -> Result<(), OutOfMemory>
        requires { shape.filers ≤ 64 }
        ensures { OnOk result (self.new ≡ split_role shape self.old seat right (role_at self.old seat)) }
    {
        let view = take(&mut self.views, seat);
        let (next, new) = pool_steps::split(alloc, shape, right, view)?;
        put(&mut self.views, seat as usize, next);
        match new {
            Some(new) => self.views.push(new)?,
            None => {}
        }
        Ok(())
    }

    fn learn(&mut self, shape: Shape, seat: u32, note: u32) -> Result<(), OutOfMemory>
        ensures { OnOk result (self.new ≡ learn_roles shape self.old seat note (role_at self.old seat) (role_at self.old note)) }
    {
        if seat == note {
            return Ok(());
        }
        let view = take(&mut self.views, seat);
        let other = take(&mut self.views, note);
        let (next, rest) = core_steps::learn(shape, view, other)?;
        put(&mut self.views, seat as usize, next);
        put(&mut self.views, note as usize, rest);
        Ok(())
    }

    fn gather(&mut self, shape: Shape, seat: u32, other: u32)
        ensures { self.new ≡ gather_roles shape self.old seat other (role_at self.old seat) (role_at self.old other) }
    {
        if seat == other {
            return;
        }
        let view = take(&mut self.views, seat);
        let gone = take(&mut self.views, other);
        let (next, rest) = pool_steps::gather(shape, view, gone);
        put(&mut self.views, seat as usize, next);
        put(&mut self.views, other as usize, rest);
    }

    fn source(&mut self, shape: Shape, seat: u32, ssrc: u32) -> Result<(), OutOfMemory>
        ensures { OnOk result (self.new ≡ source_role shape self.old seat ssrc (role_at self.old seat)) }
    {
        let view = take(&mut self.views, seat);
        let next = core_steps::source(shape, ssrc, view, &mut self.source)?;
        put(&mut self.views, seat as usize, next);
        Ok(())
    }

    fn base(&mut self, shape: Shape, seat: u32, ts: u32) -> Result<(), OutOfMemory>
        ensures { OnOk result (self.new ≡ base_role shape self.old seat ts (role_at self.old seat)) }
    {
        let view = take(&mut self.views, seat);
        let next = core_steps::base(shape, ts, view, &mut self.base)?;
        put(&mut self.views, seat as usize, next);
        Ok(())
    }

    fn peek(&mut self, shape: Shape, seat: u32) -> Result<(), OutOfMemory>
        ensures { OnOk result (self.new ≡ peek_role shape self.old seat (role_at self.old seat)) }
    {
        let view = take(&mut self.views, seat);
        let next = core_steps::peek(shape, view, self.base)?;
        put(&mut self.views, seat as usize, next);
        Ok(())
    }

    /// Takes one atomic step. One that the view of its seat does not allow changes nothing. Where memory is wanting,
    /// nothing is said of the ring that is left.
    pub fn happens(
        &mut self,
        alloc: Global,
        shape: Shape,
        event: &CoreEvent,
    ) -> Result<(), OutOfMemory>
        requires filers { shape.filers ≤ 64 }
        requires g { shape.g ≤ 10 }
        ensures { OnOk result (self.new ≡ happens shape self.old event.now) }
    {
        match *event {
            CoreEvent::Enlist { seat, berth } => {
                self.enlist(alloc, shape, seat, berth);
                Ok(())
            }
            CoreEvent::Load {
                seat,
                number,
                frame,
            } => self.load(shape, seat, number, frame),
            CoreEvent::Publish { seat } => self.publish(shape, seat),
            CoreEvent::Tick { seat } => self.go_on(shape, seat, Move::Played),
            CoreEvent::Leave { seat } => {
                self.leave(shape, seat);
                Ok(())
            }
            CoreEvent::Split { seat, right } => self.split(alloc, shape, seat, right),
            CoreEvent::Learn { seat, note } => self.learn(shape, seat, note),
            CoreEvent::Gather { seat, other } => {
                self.gather(shape, seat, other);
                Ok(())
            }
            CoreEvent::Source { seat, ssrc } => self.source(shape, seat, ssrc),
            CoreEvent::Base { seat, ts } => self.base(shape, seat, ts),
            CoreEvent::Peek { seat } => self.peek(shape, seat),
            CoreEvent::Look { seat, ahead } => self.look(shape, seat, Glance::Ahead(ahead)),
            CoreEvent::Retire { seat } => self.go_on(shape, seat, Move::Retired),
            CoreEvent::Hold { seat } => self.look(shape, seat, Glance::Here),
        }
    }
}
