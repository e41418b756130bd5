use crate::timeline_svg::PictureError;
use crate::timeline_svg::escape::push_escaped;
use crate::timeline_svg::fitting::{Fitted, cut_to};
use std::alloc::{AllocError, Global};
use std::fmt::Write;

/// What writes a picture, and what it has written so far. Where there was no memory for some of it, its end tells so.
#[derive(Drop)]
pub struct Pen {
    alloc: Global,
    out: String,
    lacks_memory: bool,
}

/// Where something is drawn, in pixels from the left and from the top.
#[derive(Clone, Copy)]
pub struct Place {
    pub x: u32,
    pub y: u32,
}

/// How long and how high something is, in pixels.
#[derive(Clone, Copy)]
pub struct Size {
    pub width: u32,
    pub height: u32,
}

impl Pen {
    pub fn new(alloc: Global) -> Pen {
        Pen {
            alloc,
            out: String::new(alloc),
            lacks_memory: false,
        }
    }

    /// What was written, all of it.
    pub fn into_text(self) -> Result<String, PictureError> {
        let Pen {
            alloc: _,
            out,
            lacks_memory,
        } = self;
        if lacks_memory {
            return Err(PictureError::NoMemory);
        }
        Ok(out)
    }

    fn note(&mut self, written: Result<(), AllocError>) {
        if written.is_err() {
            self.lacks_memory = true;
        }
    }

    /// Writes what is XML already.
    pub fn raw(&mut self, text: &str) {
        let written = self.out.push_str(text);
        self.note(written);
    }

    /// A number as a text of its own.
    pub fn numeral(&mut self, class: &str, place: Place, number: usize) {
        let (x, y) = (place.x, place.y);
        let written = write!(
            self.out,
            "<text class=\"{class}\" x=\"{x}\" y=\"{y}\">{number}</text>"
        );
        self.note(written);
    }

    /// Begins a group of that name, with a number behind it.
    pub fn begin_group(&mut self, name: &str, number: usize) {
        let written = write!(self.out, "<g id=\"{name}-{number}\">");
        self.note(written);
    }

    pub fn end_group(&mut self) {
        self.raw("</g>\n");
    }

    /// The head of a picture of that size.
    pub fn head(&mut self, size: Size) {
        let (width, height) = (size.width, size.height);
        let written = writeln!(
            self.out,
            "<svg xmlns=\"http://www.w3.org/2000/svg\" width=\"{width}\" height=\"{height}\" viewBox=\"0 0 {width} {height}\" role=\"img\">"
        );
        self.note(written);
    }

    /// A text that is told where somebody points at what it stands in.
    pub fn title(&mut self, text: &str) {
        self.raw("<title>");
        self.text(text);
        self.raw("</title>");
    }

    fn text(&mut self, text: &str) {
        let written = push_escaped(&mut self.out, text);
        self.note(written);
    }

    /// A text in so many columns; one that is cut is told whole where somebody points at it.
    pub fn label(&mut self, class: &str, place: Place, text: &str, columns: usize) {
        let (x, y) = (place.x, place.y);
        let written = write!(self.out, "<text class=\"{class}\" x=\"{x}\" y=\"{y}\">");
        self.note(written);
        match cut_to(self.alloc, text, columns) {
            Ok(drawn) => self.cut(text, &drawn),
            Err(_) => self.lacks_memory = true,
        }
        self.raw("</text>\n");
    }

    /// What is drawn of a text.
    fn cut(&mut self, text: &str, drawn: &Fitted) {
        if drawn.is_cut {
            self.title(text);
        }
        self.text(drawn.text.as_str());
    }

    pub fn rect(&mut self, class: &str, place: Place, size: Size) {
        let (x, y) = (place.x, place.y);
        let (width, height) = (size.width, size.height);
        let written = writeln!(
            self.out,
            "<rect class=\"{class}\" x=\"{x}\" y=\"{y}\" width=\"{width}\" height=\"{height}\"/>"
        );
        self.note(written);
    }

    pub fn line(&mut self, class: &str, from: Place, to: Place) {
        let (x, y) = (from.x, from.y);
        let (right, down) = (to.x, to.y);
        let written = writeln!(
            self.out,
            "<line class=\"{class}\" x1=\"{x}\" y1=\"{y}\" x2=\"{right}\" y2=\"{down}\"/>"
        );
        self.note(written);
    }

    /// A shape that was defined under that name.
    pub fn stamp(&mut self, name: &str, place: Place) {
        let (x, y) = (place.x, place.y);
        let written = writeln!(self.out, "<use href=\"#{name}\" x=\"{x}\" y=\"{y}\"/>");
        self.note(written);
    }
}

impl Place {
    /// The place so many pixels to the right and below; at the end of what numbers say it stays there.
    pub fn by(self, right: u32, down: u32) -> Place {
        Place {
            x: self.x.saturating_add(right),
            y: self.y.saturating_add(down),
        }
    }
}
