//! Systems, blocks and processes.

use crate::out::{Out, Shown, put_all, put_bracketed, put_list, put_some};
use og_ast::{
    BlockPart, BlockTree, ChannelTree, CountTree, LinkTree, PathTree, PointTree, ProcessTree,
    ReferenceTree, RouteTree, SigTree, SignalTree, SystemPart, SystemTree, Unit, UseTree,
};

impl Shown for Unit {
    fn show(&self, out: &mut Out) {
        match self {
            Self::Use(module) => module.show(out),
            Self::System(system) => system.show(out),
            Self::Process(process) => process.show(out),
        }
    }
}

impl Shown for UseTree {
    fn show(&self, out: &mut Out) {
        out.at(self.place);
        out.put("use ");
        self.module.show(out);
        self.end.show(out);
    }
}

impl Shown for SystemTree {
    fn show(&self, out: &mut Out) {
        out.at(self.place);
        out.put("system ");
        out.name(&self.name);
        self.end.show(out);
        put_all(out, self.parts.as_slice(), "");
        self.closing.show(out);
    }
}

impl Shown for SystemPart {
    fn show(&self, out: &mut Out) {
        match self {
            Self::Use(module) => module.show(out),
            Self::Signal(signal) => signal.show(out),
            Self::Channel(channel) => channel.show(out),
            Self::Procedure(procedure) => procedure.show(out),
            Self::Block(block) => block.show(out),
        }
    }
}

impl Shown for BlockTree {
    fn show(&self, out: &mut Out) {
        out.at(self.place);
        out.put("block ");
        out.name(&self.name);
        self.end.show(out);
        put_all(out, self.parts.as_slice(), "");
        self.closing.show(out);
    }
}

impl Shown for BlockPart {
    fn show(&self, out: &mut Out) {
        match self {
            Self::Signal(signal) => signal.show(out),
            Self::Route(route) => route.show(out),
            Self::Link(link) => link.show(out),
            Self::Process(process) => process.show(out),
            Self::Reference(reference) => reference.show(out),
        }
    }
}

impl Shown for SignalTree {
    fn show(&self, out: &mut Out) {
        out.at(self.place);
        out.put("signal ");
        put_list(out, self.signals.as_slice());
        self.end.show(out);
    }
}

impl Shown for SigTree {
    fn show(&self, out: &mut Out) {
        out.name(&self.name);
        put_bracketed(out, self.sorts.as_slice());
    }
}

impl Shown for ChannelTree {
    fn show(&self, out: &mut Out) {
        out.at(self.place);
        out.put("channel ");
        out.name(&self.name);
        out.put("\n");
        put_all(out, self.paths.as_slice(), "");
        self.closing.show(out);
    }
}

impl Shown for RouteTree {
    fn show(&self, out: &mut Out) {
        out.at(self.place);
        out.put("route ");
        out.name(&self.name);
        out.put("\n");
        put_all(out, self.paths.as_slice(), "");
    }
}

impl Shown for PathTree {
    fn show(&self, out: &mut Out) {
        out.at(self.place);
        out.put("from ");
        self.from.show(out);
        out.put(" to ");
        self.to.show(out);
        out.put(" with ");
        put_list(out, self.signals.as_slice());
        self.end.show(out);
    }
}

impl Shown for PointTree {
    fn show(&self, out: &mut Out) {
        match self {
            Self::Env(_) => out.put("env"),
            Self::Name(name) => out.name(name),
        }
    }
}

impl Shown for LinkTree {
    fn show(&self, out: &mut Out) {
        out.at(self.place);
        out.put("connect ");
        put_list(out, self.channels.as_slice());
        out.put(" and ");
        put_list(out, self.routes.as_slice());
        self.end.show(out);
    }
}

impl Shown for ProcessTree {
    fn show(&self, out: &mut Out) {
        out.at(self.place);
        out.put("process ");
        out.name(&self.name);
        put_some(out, "", &self.count, "");
        self.end.show(out);
        put_all(out, self.parts.as_slice(), "");
        self.closing.show(out);
    }
}

impl Shown for ReferenceTree {
    fn show(&self, out: &mut Out) {
        out.at(self.place);
        out.put("reference ");
        out.name(&self.name);
        put_some(out, "", &self.count, "");
        self.end.show(out);
    }
}

impl Shown for CountTree {
    fn show(&self, out: &mut Out) {
        out.put("(");
        out.number(self.initial);
        out.put(", ");
        out.number(self.most);
        out.put(")");
    }
}
