//! Pages that say one thing.

/// The text of a page with this stylesheet, in this language, which runs in this direction, with this title
/// and what it says.
macro_rules! plain_page {
    ($style:literal, $language:literal, $direction:literal, $title:literal, $said:literal) => {
        concat!(
            "<!DOCTYPE html>\n<html lang=\"",
            $language,
            "\" dir=\"",
            $direction,
            "\">\n<head>\n<meta charset=\"utf-8\">\n",
            "<meta name=\"viewport\" content=\"width=device-width, initial-scale=1\">\n",
            "<title>",
            $title,
            "</title>\n<style>",
            $style,
            "</style>\n</head>\n<body>\n<main>\n<h1>",
            $title,
            "</h1>\n<p>",
            $said,
            "</p>\n</main>\n</body>\n</html>\n",
        )
    };
}

pub(crate) use plain_page;
