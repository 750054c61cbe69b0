// video.h: the screen, textures and regions.

pub const VIDEO: &str = "\
#ifndef VIDEO_H
#define VIDEO_H

#define screen_width 640
#define screen_height 360

#define color_black 0xFF000000
#define color_white 0xFFFFFFFF
#define color_red 0xFF0000FF

#define blending_alpha 0x20
#define blending_add 0x21
#define blending_subtract 0x22

void clear_screen(int c)
{
    port_out(GPU_ClearColor, c);
    port_out(GPU_Command, 0x10);
}

void select_texture(int n)
{
    port_out(GPU_SelectedTexture, n);
}

void select_region(int n)
{
    port_out(GPU_SelectedRegion, n);
}

void set_multiply_color(int c)
{
    port_out(GPU_MultiplyColor, c);
}

void set_blending_mode(int m)
{
    port_out(GPU_ActiveBlending, m);
}

void set_drawing_point(int x, int y)
{
    port_out(GPU_DrawingPointX, x);
    port_out(GPU_DrawingPointY, y);
}

// the selected region: its corners, both inclusive, and its hotspot
void define_region(int x0, int y0, int x1, int y1, int hx, int hy)
{
    port_out(GPU_RegionMinX, x0);
    port_out(GPU_RegionMinY, y0);
    port_out(GPU_RegionMaxX, x1);
    port_out(GPU_RegionMaxY, y1);
    port_out(GPU_RegionHotspotX, hx);
    port_out(GPU_RegionHotspotY, hy);
}

void draw_region()
{
    port_out(GPU_Command, 0x11);
}

void draw_region_at(int x, int y)
{
    set_drawing_point(x, y);
    draw_region();
}

#endif
";
