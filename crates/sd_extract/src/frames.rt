//! The frames of a procedure and of its loops.
ghost use Rattle.std.specs.Prelude.{◌≡◌, length};
ghost use Rattle.sd_extract.specs.Extract as spec;
ghost use Rattle.sd_extract.specs.Extract.{names_at, body_copies, loop_state};
ghost use Rattle.sd_extract.specs.Scopes.{names_in, frame_in};
ghost use Rattle.sd_extract.specs.Sources.{source_in, AreGlobals, IsLayout};

use crate::frame::{Frame, Leave};
use crate::scope::Scope;
use crate::source::{Layout, Source};
use sd_core::Spot;

fn body_scope<'a>(source: &'a Source<'a>, layout: &'a Layout) -> Scope<'a>
    requires globals { AreGlobals source.now.globals.now }
    requires layout { IsLayout (source_in source.now) layout.now }
    ensures { names_in result ≡ names_at (source_in source.now) (length source.now.head.now.ins)
        (body_copies (source_in source.now)) }
{
    Scope {
        local_names: &layout.names,
        locals: layout.places.as_slice(),
        global_names: &source.globals.names,
        globals: source.globals.spots.as_slice(),
        entry: layout.entry.as_slice(),
    }
}

fn turn_scope<'a>(source: &'a Source<'a>, layout: &'a Layout) -> Scope<'a>
    requires globals { AreGlobals source.now.globals.now }
    requires layout { IsLayout (source_in source.now) layout.now }
    ensures { names_in result ≡ names_at (source_in source.now) (loop_state (source_in source.now))
        (body_copies (source_in source.now)) }
{
    Scope {
        local_names: &layout.names,
        locals: layout.turn_places.as_slice(),
        global_names: &source.globals.names,
        globals: source.globals.spots.as_slice(),
        entry: layout.entry.as_slice(),
    }
}

fn contract_scope<'a>(source: &'a Source<'a>, layout: &'a Layout) -> Scope<'a>
    requires globals { AreGlobals source.now.globals.now }
    requires layout { IsLayout (source_in source.now) layout.now }
    ensures { names_in result ≡ spec.contract (source_in source.now) }
{
    Scope {
        local_names: &layout.contract_names,
        locals: layout.contract_places.as_slice(),
        global_names: &source.globals.names,
        globals: source.globals.spots.as_slice(),
        entry: layout.entry.as_slice(),
    }
}

/// What the statements of a procedure are turned by.
pub(crate) fn body_frame<'a>(source: &'a Source<'a>, layout: &'a Layout) -> Frame<'a>
    requires globals { AreGlobals source.now.globals.now }
    requires layout { IsLayout (source_in source.now) layout.now }
    ensures { frame_in result ≡ spec.body_frame (source_in source.now) }
{
    Frame {
        scope: body_scope(source, layout),
        ins: layout.slots.ins.as_slice(),
        state: layout.slots.state.as_slice(),
        copies: layout.slots.copies.as_slice(),
        leave: Leave::Procedure(
            contract_scope(source, layout),
            source.declared.specs.as_slice(),
        ),
    }
}

/// What the statements of its loops are turned by.
pub(crate) fn turn_frame<'a>(source: &'a Source<'a>, layout: &'a Layout) -> Frame<'a>
    requires globals { AreGlobals source.now.globals.now }
    requires layout { IsLayout (source_in source.now) layout.now }
    ensures { frame_in result ≡ spec.loop_frame (source_in source.now) }
{
    Frame {
        scope: turn_scope(source, layout),
        ins: layout.slots.ins.as_slice(),
        state: layout.slots.turn.as_slice(),
        copies: layout.slots.copies.as_slice(),
        leave: Leave::Loop(Spot::Slot(layout.slots.left)),
    }
}
