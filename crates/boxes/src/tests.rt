use super::*;

// An upright rectangle around (x, 0).
fn rectangle(x: f32, ex: f32) -> RoundedBox {
    let frame = Transform2D {
        a: 1.0,
        b: 0.0,
        c: 0.0,
        d: 1.0,
        x,
        y: 0.0,
    };
    RoundedBox {
        frame,
        ex,
        ey: 1.0,
        rx: 0.0,
        ry: 0.0,
    }
}

#[test]
fn first_place_asks_a_closure(rt: HostRuntime) {
    let boxes = [
        rectangle(0.0, 1.0),
        rectangle(8.0, 1.0),
        rectangle(9.0, 1.0),
    ];
    assert_eq!(rt; first_place(&boxes, |b| b.frame.x > 4.0), Ok(Some(1)));
    assert_eq!(rt; first_place(&boxes, |b| b.frame.x > 9.0), Ok(None));
    let faulty = [rectangle(8.0, 1.0), rectangle(0.0, -1.0)];
    assert_eq!(rt;
        first_place(&faulty, |b| b.frame.x > 4.0),
        Err(Fault::ImproperBox)
    );
    let many = [rectangle(0.0, 1.0); 4097];
    assert_eq!(rt; first_place(&many, |_| true), Err(Fault::TooManyBoxes));
    assert_eq!(rt; first_place(&many[1..], |_| false), Ok(None));
}

#[test]
fn first_place_in_asks_a_closure(rt: HostRuntime) {
    let mut floats = [0f32; 20];
    for b in floats.chunks_exact_mut(10) {
        b.copy_from_slice(&[1.0, 0.0, 0.0, 1.0, 0.0, 0.0, 1.0, 1.0, 0.0, 0.0]);
    }
    floats[14] = 8.0;
    assert_eq!(rt;
        first_place_in(&floats, 2, |b| b.frame.x > 4.0),
        Ok(Some(1))
    );
    assert_eq!(rt; first_place_in(&floats, 1, |b| b.frame.x > 4.0), Ok(None));
    floats[6] = -1.0;
    assert_eq!(rt;
        first_place_in(&floats, 2, |b| b.frame.x > 4.0),
        Err(Fault::ImproperBox)
    );
}
