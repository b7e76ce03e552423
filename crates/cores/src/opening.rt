//! The machine before its first step: harts and memory of an image.
#![tactic(auto, unfolding(cheri_model::specs::runs::Image::opening_memory))]

ghost use Rattle.std.specs.Prelude.{◌≡◌, All, IfOk, map, length};
ghost use Rattle.cheri_model.specs.runs.Authority.{EachOfHart};
ghost use Rattle.cap_model.specs.values.CapValue.{IsLawfulValue};
ghost use Rattle.cheri_model.specs.runs.Image.{opening_hart, opening_memory};
ghost use Rattle.cheri_model.specs.steps.Memory.{IsMemory};
ghost use Rattle.cheri_model.specs.declared.image.HartImage.{HartImage};

use cap_ops::Cap;
use cheri_model::{HartImage, Image, NoMemory};
use hart_step::Hart;
use std::alloc::{AllocError, Global};
use tagged_mem::{MemFault, Ram};

/// The harts of an image, ready to step.
pub fn opening_harts(alloc: Global, images: &[HartImage]) -> Result<Vec<Hart>, NoMemory>
    ensures same { IfOk result (λ harts. harts.items ≡ map opening_hart images.now) }
    ensures lawful { IfOk result (λ harts. All (EachOfHart IsLawfulValue) harts.items) }
{
    let mut harts = Vec::with_capacity(alloc, images.len())?;
    for image in images {
        harts.push(Hart::open(image))?;
    }
    Ok(harts)
}

/// The memory of an image: an untagged 0 everywhere but at the image's granules.
pub fn opening_ram(alloc: Global, image: &Image) -> Result<Ram, NoMemory>
    ensures same { IfOk result (λ ram. ram ≡ opening_memory image.now.ram image.now.granules) }
    ensures memory { IfOk result (λ ram. IsMemory ram) }
{
    let granules = image.granules();
    let mut ram = match Ram::new(alloc, image.ram()) {
        Ok(ram) => ram,
        Err(MemFault::NoMemory) => return Err(AllocError),
        Err(MemFault::Size) => unreachable!("an image has a lawful size of RAM"),
    };
    for (addr, value) in granules {
        ram.store_cap(*addr, Cap::of_value(*value));
    }
    // The count's contract says that every granule's value is lawful.
    let _count = ram.granule_count();
    Ok(ram)
}

/// The same memory.
pub fn copied_ram(alloc: Global, ram: &Ram) -> Result<Ram, NoMemory>
    ensures { IfOk result (λ copy. copy ≡ ram.now) }
{
    ram.copy(alloc).map_err(|_| AllocError)
}
