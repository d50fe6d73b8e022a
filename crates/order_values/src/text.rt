// An order as text: its name and its operands.
use crate::names::Name;
use order::code::{Order, RegisterOrder};
use std::fmt;

#[derive(Clone, Copy)]
pub(crate) struct Text<T>(pub T);

impl fmt::Display for Text<Order> {
    fn fmt<W: fmt::Write>(&self, f: &mut fmt::Formatter<W>) -> fmt::Result {
        match self.0 {
            Order::Register(o) => write!(f, "{}", Text(o)),
            Order::Store(o, q, e) => write!(f, "{} {} {e}", o.name(), q.get()),
            Order::Indexed(o, k, q) => write!(f, "{} {} {}", o.name(), k.get(), q.get()),
            Order::Transfer(o, q) => write!(f, "{} {}", o.name(), q.get()),
            Order::Out => write!(f, "OUT"),
        }
    }
}

impl fmt::Display for Text<RegisterOrder> {
    fn fmt<W: fmt::Write>(&self, f: &mut fmt::Formatter<W>) -> fmt::Result {
        match self.0 {
            RegisterOrder::Move(o) => write!(f, "{}", o.name()),
            RegisterOrder::Unary(o) => write!(f, "{}", o.name()),
            RegisterOrder::Binary(o) => write!(f, "{}", o.name()),
            RegisterOrder::Control(o) => write!(f, "{}", o.name()),
            RegisterOrder::Q(o, q) => write!(f, "{} {}", o.name(), q.get()),
            RegisterOrder::ShiftByCount(s, q) => write!(f, "{}C {}", s.name(), q.get()),
            RegisterOrder::ShiftBy(s, n) => write!(f, "{} {n}", s.name()),
            RegisterOrder::Exit(h) => write!(f, "EXIT {h}"),
            RegisterOrder::Jump(c, a) => write!(f, "{} {a}", c.name()),
            RegisterOrder::Set(i) => write!(f, "SET {i}"),
            RegisterOrder::JumpCount(t, q, a) => write!(f, "{} {} {a}", t.name(), q.get()),
            RegisterOrder::Copy(p, k, q) => write!(f, "{} {} {}", p.name(), k.get(), q.get()),
        }
    }
}
