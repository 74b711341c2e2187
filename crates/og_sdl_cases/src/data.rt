//! Variables, timers, parameters and procedures.

use crate::out::{Out, Shown, put_all, put_list, put_some};
use og_ast::{
    ConnectionTree, DclTree, FormalTree, FparTree, ItemTree, Passing, ProcedureBody, ProcedureTree,
    ReturnsTree, TimerTree,
};

impl Shown for DclTree {
    fn show(&self, out: &mut Out) {
        out.at(self.place);
        out.put("dcl ");
        put_list(out, self.items.as_slice());
        self.end.show(out);
    }
}

impl Shown for ItemTree {
    fn show(&self, out: &mut Out) {
        put_list(out, self.names.as_slice());
        out.put(" ");
        self.sort.show(out);
        put_some(out, " := ", &self.initial, "");
    }
}

impl Shown for TimerTree {
    fn show(&self, out: &mut Out) {
        out.at(self.place);
        out.put("timer ");
        put_list(out, self.names.as_slice());
        self.end.show(out);
    }
}

impl Shown for FparTree {
    fn show(&self, out: &mut Out) {
        out.at(self.place);
        out.put("fpar ");
        put_list(out, self.formals.as_slice());
        self.end.show(out);
    }
}

impl Shown for FormalTree {
    fn show(&self, out: &mut Out) {
        out.put(match self.passing {
            Passing::Unsaid => "",
            Passing::In => "in ",
            Passing::InOut => "in/out ",
        });
        put_list(out, self.names.as_slice());
        out.put(" ");
        self.sort.show(out);
    }
}

impl Shown for ReturnsTree {
    fn show(&self, out: &mut Out) {
        out.at(self.place);
        out.put("returns ");
        self.sort.show(out);
        self.end.show(out);
    }
}

impl Shown for ProcedureTree {
    fn show(&self, out: &mut Out) {
        out.at(self.place);
        out.put("procedure ");
        out.name(&self.name);
        self.end.show(out);
        put_some(out, "", &self.fpar, "");
        put_some(out, "", &self.returns, "");
        self.body.show(out);
    }
}

impl Shown for ProcedureBody {
    fn show(&self, out: &mut Out) {
        match self {
            Self::External(place, end) => {
                out.at(*place);
                out.put("external");
                end.show(out);
            }
            Self::Own {
                dcls,
                place,
                end,
                transition,
                connections,
                closing,
            } => {
                put_all(out, dcls.as_slice(), "");
                out.at(*place);
                out.put("start");
                end.show(out);
                transition.show(out);
                put_all(out, connections.as_slice(), "");
                closing.show(out);
            }
        }
    }
}

impl Shown for ConnectionTree {
    fn show(&self, out: &mut Out) {
        out.at(self.place);
        out.put("connection ");
        out.name(&self.label);
        out.put("\n");
        self.transition.show(out);
        out.put("endconnection");
        self.end.show(out);
    }
}
