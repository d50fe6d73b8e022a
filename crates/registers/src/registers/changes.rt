// The changes that the orders are made of.
ghost use Rattle.std.specs.Prelude.{◌≡◌, ◌+◌, ◌<◌, length, false};
ghost use Rattle.registers.specs.Registers.{N1, link, push, pop, push_link, pop_link, put_q, with_place, with_overflow, with_test};

use super::Registers;
use order::code::QNumber;
use std::mem;
use word::q::Q;
use word::word::Word;

impl Registers {
    pub fn push_word(&mut self, x: Word)
        requires { length self.old.nest < 16 }
        ensures after { self.new ≡ push x.bits self.old }
        ensures more { length self.new.nest ≡ length self.old.nest + 1 }
    {
        self.nest.push(x);
    }

    // N1, removed.
    pub fn pop_word(&mut self) -> Word
        requires { 0 < length self.old.nest }
        ensures answer { result.bits ≡ N1 self.old }
        ensures after { self.new ≡ pop self.old }
        ensures fewer { length self.new.nest + 1 ≡ length self.old.nest }
        ensures room { length self.new.nest < 16 }
    {
        self.nest.pop(Word::default())
    }

    pub fn push_link(&mut self, x: u16)
        requires { length self.old.links < 16 }
        ensures { self.new ≡ push_link x self.old }
    {
        self.links.push(x);
    }

    // The newest link, removed.
    pub fn pop_link(&mut self) -> u16
        requires { 0 < length self.old.links }
        ensures answer { result ≡ link self.old }
        ensures after { self.new ≡ pop_link self.old }
    {
        self.links.pop(0)
    }

    // A write to Q0 is lost.
    pub fn put_q(&mut self, q: QNumber, value: Q)
        ensures { self.new ≡ put_q q value self.old }
    {
        let number = q.get();
        if number != 0 {
            self.qs[usize::from(number)] = value;
        }
    }

    pub fn go_to(&mut self, place: u16)
        ensures { self.new ≡ with_place place self.old }
    {
        self.place = place;
    }

    pub fn set_overflow(&mut self, overflow: bool)
        ensures { self.new ≡ with_overflow overflow self.old }
    {
        self.overflow = overflow;
    }

    // V, which is left clear.
    pub fn take_overflow(&mut self) -> bool
        ensures answer { result ≡ self.old.overflow }
        ensures after { self.new ≡ with_overflow false self.old }
    {
        mem::take(&mut self.overflow)
    }

    pub fn set_test(&mut self, test: bool)
        ensures { self.new ≡ with_test test self.old }
    {
        self.test = test;
    }

    // T, which is left clear.
    pub fn take_test(&mut self) -> bool
        ensures answer { result ≡ self.old.test }
        ensures after { self.new ≡ with_test false self.old }
    {
        mem::take(&mut self.test)
    }
}
