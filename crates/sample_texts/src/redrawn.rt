//! Orders, which are drawn again where they are told.
#![tactic(auto, unfolding(crate::specs::SampleTexts::seen_words))]

ghost use Rattle.std.specs.Prelude.{◌≡◌, ◌≤◌, ◌++◌, length, IfOk, OnOk, string_bytes};
ghost use Rattle.cheri_model.specs.runs.Image.{opening_memory};
ghost use Rattle.sample_texts.specs.SampleParts.{order_of};
ghost use Rattle.sample_texts.specs.SampleTexts.{seen_words};

use cheri_model::{Image, NoMemory};
use order_texts::write_order;
use sample_draws::{Drawing, MAX_RUN};
use sample_runs::Runner;
use sample_tallies::Seen;
use shown_states::Loaded;
use std::alloc::Global;
use std::marker::Model;

/// What draws the orders of runs of an image again. Contracts see the image and the drawing.
#[derive(Drop)]
pub(crate) struct Orders<'d> {
    alloc: Global,
    runner: Runner,
    drawing: &'d Drawing,
}

impl<'d> Model for Orders<'d> {
    ghost use Rattle.sample_texts.specs.SampleParts.{Drawn};

    ghost Value = { Drawn };

    ghost view = { λ o. record { image = o.runner.image; drawing = o.drawing.now } };
}

impl<'d> Orders<'d> {
    /// Those of runs of an image. Fails only when out of memory, as all calls here.
    pub fn open(alloc: Global, image: &Image, drawing: &'d Drawing) -> Result<Orders<'d>, NoMemory>
        ensures image { IfOk result (λ orders. orders.image ≡ image.now) }
        ensures drawing { IfOk result (λ orders. orders.drawing ≡ drawing.now) }
    {
        let runner = Runner::open(alloc, image)?;
        Ok(Orders {
            alloc,
            runner,
            drawing,
        })
    }

    /// The allocator.
    pub fn alloc(&self) -> Global {
        self.alloc
    }

    /// The image.
    pub fn image(&self) -> &Image
        ensures { result.now ≡ self.now.image }
    {
        self.runner.image()
    }

    /// How orders are drawn.
    pub fn drawing(&self) -> &Drawing
        ensures { result.now ≡ self.now.drawing }
    {
        self.drawing
    }

    /// A state of as many harts and granules as the image's.
    pub fn blank(&self) -> Result<Loaded, NoMemory>
        ensures harts { IfOk result (λ state.
            length state.harts ≡ length self.now.image.harts) }
        ensures granules { IfOk result (λ state. length state.memory
            ≡ length (opening_memory self.now.image.ram self.now.image.granules)) }
    {
        let memory = self.runner.memory();
        Loaded::new(self.alloc, self.runner.harts(), memory.opening())
    }

    /// Appends the order of the run with this number.
    pub fn write(&mut self, out: &mut String, run: u64) -> Result<(), NoMemory>
        requires { run ≤ MAX_RUN }
        ensures written { OnOk result (string_bytes out.new
            ≡ string_bytes out.old ++ order_of self.old run) }
        ensures same { self.new ≡ self.old }
    {
        let order = self.runner.order(self.alloc, self.drawing, run)?;
        write_order(out, order.as_slice())
    }

    /// The order of the run with this number as text.
    pub fn text(&mut self, run: u64) -> Result<String, NoMemory>
        requires { run ≤ MAX_RUN }
        ensures text { IfOk result (λ text. string_bytes text ≡ order_of self.old run) }
        ensures same { self.new ≡ self.old }
    {
        let mut text = String::new(self.alloc);
        self.write(&mut text, run)?;
        Ok(text)
    }

    /// Appends how many runs were seen, the first of them, and its order.
    pub fn write_seen(&mut self, out: &mut String, seen: Seen) -> Result<(), NoMemory>
        requires { seen.first ≤ MAX_RUN }
        ensures written { OnOk result (string_bytes out.new
            ≡ string_bytes out.old ++ seen_words self.old seen) }
        ensures same { self.new ≡ self.old }
    {
        write!(out, "runs={} first={} order=", seen.runs, seen.first)?;
        self.write(out, seen.first)
    }
}
