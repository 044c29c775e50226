// How many bytes a request and a reply have, an image, and at most a PDO.
pub const FRAME: usize = 8;

pub const IMAGE: usize = image::IMAGE_LENGTH;

pub const PDO: usize = 8;
