//! Pages, piece by piece: markup of the program, and texts.
ghost use Rattle.std.specs.Prelude.{◌≡◌, ◌++◌, [], IfOk, OnOk, map, string_bytes};
ghost use Rattle.garde_html.specs.Html.{html_text};
ghost use Rattle.garde_html.specs.Page.{piece_of, rendered, rendered_piece};

use crate::text::HtmlText;
use std::alloc::{AllocError, Global};
use std::marker::Model;

/// A piece of a page.
#[derive(Clone, Copy, Debug)]
pub enum Piece<'a> {
    /// Markup, which stands on the page as it is. No text of a visitor is markup.
    Markup(&'a str),
    /// A text, which stands on the page as `HtmlText`.
    Text(&'a str),
}

/// A page. A contract sees the list of its pieces.
#[derive(Debug, Drop)]
pub struct Page<'a> {
    pieces: Vec<Piece<'a>>,
}

impl<'a> Model for Page<'a> {
    ghost use Rattle.std.specs.Prelude.{List, map};
    ghost use Rattle.garde_html.specs.Page.{Written, piece_of};

    ghost Value = { List Written };

    ghost view = { λ a. map piece_of a.pieces.items };
}

impl<'a> Page<'a> {
    /// The page without a piece. It keeps the allocator.
    pub fn new(alloc: Global) -> Self
        ensures { result ≡ [] }
    {
        Page {
            pieces: Vec::new(alloc),
        }
    }

    /// Appends these pieces. Where there is no memory, some of them may have been appended.
    pub fn put(&mut self, pieces: &[Piece<'a>]) -> Result<(), AllocError>
        ensures { OnOk result (self.new ≡ self.old ++ map piece_of pieces.now) }
    {
        put_all(&mut self.pieces, pieces)
    }

    /// The HTML of the page.
    pub fn to_html(&self, alloc: Global) -> Result<String, AllocError>
        ensures { IfOk result (λ html. string_bytes html ≡ rendered self.now) }
    {
        html_of(alloc, &self.pieces)
    }
}

// Appends pieces one by one.
fn put_all<'a>(all: &mut Vec<Piece<'a>>, pieces: &[Piece<'a>]) -> Result<(), AllocError>
    ensures { OnOk result (map piece_of all.new.items
        ≡ map piece_of all.old.items ++ map piece_of pieces.now) }
{
    for piece in pieces {
        all.push(*piece)?;
    }
    Ok(())
}

// The HTML of these pieces.
fn html_of(alloc: Global, pieces: &[Piece<'_>]) -> Result<String, AllocError>
    ensures { IfOk result (λ html. string_bytes html ≡ rendered (map piece_of pieces.now)) }
{
    let mut html = String::new(alloc);
    for piece in pieces {
        push_piece(&mut html, piece)?;
    }
    Ok(html)
}

// Appends the HTML of a piece.
fn push_piece(html: &mut String, piece: &Piece<'_>) -> Result<(), AllocError>
    ensures { OnOk result (string_bytes html.new
        ≡ string_bytes html.old ++ rendered_piece (piece_of piece.now)) }
{
    match piece {
        Piece::Markup(markup) => html.push_str(markup),
        Piece::Text(text) => push_text(html, text),
    }
}

// Appends the HTML of a text.
fn push_text(html: &mut String, text: &str) -> Result<(), AllocError>
    ensures { OnOk result (string_bytes html.new ≡ string_bytes html.old ++ html_text text.now) }
{
    write!(html, "{}", HtmlText(text))?;
    Ok(())
}
